//! The words of a command.
ghost use Rattle.std.specs.Prelude.{◌≡◌, ◌≤◌, true, length, option_map, map, IfSome};
ghost use Rattle.std.specs.Str.Parse.{digits_value};
ghost use Rattle.std.specs.List.{list_all};
ghost use Rattle.enc_command_line.specs.Words.{is_name, are_names, token_of_word, show_of, list_of, check_of, apply_of, write_of, run_of, is_digit, numeral_of, gen_of, compact_of, merge_of, job_of, texts};
ghost use Rattle.enc_command_line.specs.Commands.{numeral_seen, job_seen, HasFewLists, HasTwoDeltas, IsValue};

use enc_base::Token;
use enc_jobs::is_name;

/// A number, and the digits that say it.
#[derive(Clone, Copy, Debug)]
pub struct Number<'a> {
    pub digits: &'a str,
    pub value: u64,
}

/// A command with its words.
#[derive(Clone, Copy, Debug)]
pub enum Command<'a> {
    /// Prints a row of a base with deltas.
    Show {
        base: &'a str,
        token: Token,
        deltas: &'a [String],
    },
    /// Lists a base and its deltas.
    List {
        base: &'a str,
        deltas: &'a [String],
    },
    /// Tells whether a base and its deltas are accepted.
    Check {
        base: &'a str,
        deltas: &'a [String],
    },
    /// Saves the one module that has all edits of a base and its deltas.
    Apply {
        base: &'a str,
        out: &'a str,
        deltas: &'a [String],
    },
    /// Saves the same as an ordinary module, whose rows have the order that loaders expect.
    Compact {
        base: &'a str,
        out: &'a str,
        deltas: &'a [String],
    },
    /// Saves the delta that stands for the last two deltas of a base.
    Merge {
        base: &'a str,
        out: &'a str,
        deltas: &'a [String],
    },
    /// Saves the delta of an edit list that follows a base and its deltas.
    Write {
        base: &'a str,
        edits: &'a str,
        out: &'a str,
        deltas: &'a [String],
    },
    /// Prints what a script does over a base.
    Run {
        base: &'a str,
        script: &'a str,
    },
    /// Saves a generated base, the deltas of generated edit lists, and the module after all.
    Gen {
        start: Number<'a>,
        count: Number<'a>,
        out: &'a str,
    },
}

#[tactic(auto, unfolding(crate::specs::Words::token_of_word))]
fn token_of(word: &str) -> Option<Token>
    ensures { result ≡ token_of_word word.now }
{
    let mut bytes = [0; 4];
    match hex::decode_to_slice(word, &mut bytes) {
        Ok(()) => Some(Token::of(u32::from_be_bytes(bytes))),
        Err(_) => None,
    }
}

fn are_all_names(words: &[String]) -> bool
    ensures { result ≡ list_all is_name (texts words.now) }
{
    for word in words {
        if !is_name(word.as_str()) {
            return false;
        }
    }
    true
}

#[tactic(auto, unfolding(crate::specs::Words::are_names))]
fn are_names(base: &str, deltas: &[String]) -> bool
    ensures { result ≡ are_names base.now (texts deltas.now) }
{
    is_name(base) && are_all_names(deltas)
}

/// The words of `show`.
fn show_of(words: &[String]) -> Option<Command<'_>>
    ensures { option_map job_seen result ≡ show_of (texts words.now) }
{
    let [base, token, deltas @ ..] = words else {
        return None;
    };
    if !are_names(base.as_str(), deltas) {
        return None;
    }
    let token = token_of(token.as_str())?;
    Some(Command::Show {
        base: base.as_str(),
        token,
        deltas,
    })
}

/// The words of `list`.
fn list_of(words: &[String]) -> Option<Command<'_>>
    ensures { option_map job_seen result ≡ list_of (texts words.now) }
{
    let [base, deltas @ ..] = words else {
        return None;
    };
    if !are_names(base.as_str(), deltas) {
        return None;
    }
    Some(Command::List {
        base: base.as_str(),
        deltas,
    })
}

/// The words of `check`.
fn check_of(words: &[String]) -> Option<Command<'_>>
    ensures { option_map job_seen result ≡ check_of (texts words.now) }
{
    let [base, deltas @ ..] = words else {
        return None;
    };
    if !are_names(base.as_str(), deltas) {
        return None;
    }
    Some(Command::Check {
        base: base.as_str(),
        deltas,
    })
}

/// The words of `apply`.
#[tactic(auto, unfolding(crate::specs::Words::are_names))]
fn apply_of(words: &[String]) -> Option<Command<'_>>
    ensures { option_map job_seen result ≡ apply_of (texts words.now) }
{
    let [base, out, deltas @ ..] = words else {
        return None;
    };
    if !is_name(base.as_str()) || !are_names(out.as_str(), deltas) {
        return None;
    }
    Some(Command::Apply {
        base: base.as_str(),
        out: out.as_str(),
        deltas,
    })
}

/// The words of `compact`.
#[tactic(auto, unfolding(crate::specs::Words::are_names))]
fn compact_of(words: &[String]) -> Option<Command<'_>>
    ensures { option_map job_seen result ≡ compact_of (texts words.now) }
{
    let [base, out, deltas @ ..] = words else {
        return None;
    };
    if !is_name(base.as_str()) || !are_names(out.as_str(), deltas) {
        return None;
    }
    Some(Command::Compact {
        base: base.as_str(),
        out: out.as_str(),
        deltas,
    })
}

/// The words of `merge`.
#[tactic(auto, unfolding(crate::specs::Words::are_names))]
fn merge_of(words: &[String]) -> Option<Command<'_>>
    ensures job { option_map job_seen result ≡ merge_of (texts words.now) }
    ensures two { IfSome result HasTwoDeltas }
{
    let [base, out, deltas @ ..] = words else {
        return None;
    };
    let [_, _, ..] = deltas else {
        return None;
    };
    if !is_name(base.as_str()) || !are_names(out.as_str(), deltas) {
        return None;
    }
    Some(Command::Merge {
        base: base.as_str(),
        out: out.as_str(),
        deltas,
    })
}

/// The words of `write`.
#[tactic(auto, unfolding(crate::specs::Words::are_names))]
fn write_of(words: &[String]) -> Option<Command<'_>>
    ensures { option_map job_seen result ≡ write_of (texts words.now) }
{
    let [base, edits, out, deltas @ ..] = words else {
        return None;
    };
    if !is_name(base.as_str()) || !is_name(edits.as_str()) || !are_names(out.as_str(), deltas) {
        return None;
    }
    Some(Command::Write {
        base: base.as_str(),
        edits: edits.as_str(),
        out: out.as_str(),
        deltas,
    })
}

/// The words of `run`.
fn run_of(words: &[String]) -> Option<Command<'_>>
    ensures { option_map job_seen result ≡ run_of (texts words.now) }
{
    let [base, script] = words else {
        return None;
    };
    if !is_name(base.as_str()) || !is_name(script.as_str()) {
        return None;
    }
    Some(Command::Run {
        base: base.as_str(),
        script: script.as_str(),
    })
}

fn are_digits(bytes: &[u8]) -> bool
    ensures { result ≡ list_all is_digit bytes.now }
{
    for b in bytes {
        if !b.is_ascii_digit() {
            return false;
        }
    }
    true
}

/// The number that digits say, where it has at most 64 bits.
fn value_of(word: &str) -> Option<u64>
    requires some { 1 ≤ length word.now }
    requires digits { list_all is_digit word.now ≡ true }
    ensures { IsValue result (digits_value 10 word.now) }
{
    word.parse::<u64>().ok()
}

/// The number of 1 to so many decimal digits, up to a bound.
#[tactic(auto, unfolding(crate::specs::Words::numeral_of))]
fn number_of(most: usize, bound: u64, word: &str) -> Option<Number<'_>>
    ensures number { option_map numeral_seen result ≡ numeral_of most bound word.now }
    ensures within { IfSome result (λ n. n.value ≤ bound) }
{
    if word.is_empty() || word.len() > most || !are_digits(word.as_bytes()) {
        return None;
    }
    let value = value_of(word)?;
    if value > bound {
        return None;
    }
    Some(Number {
        digits: word,
        value,
    })
}

/// The words of `gen`.
fn gen_of(words: &[String]) -> Option<Command<'_>>
    ensures job { option_map job_seen result ≡ gen_of (texts words.now) }
    ensures few { IfSome result HasFewLists }
{
    let [start, count, out] = words else {
        return None;
    };
    let start = number_of(20, u64::MAX, start.as_str())?;
    let count = number_of(2, 64, count.as_str())?;
    if !is_name(out.as_str()) {
        return None;
    }
    Some(Command::Gen {
        start,
        count,
        out: out.as_str(),
    })
}

/// The row of the command table that the words are.
pub fn command_of(words: &[String]) -> Option<Command<'_>>
    ensures job { option_map job_seen result ≡ job_of (texts words.now) }
    ensures few { IfSome result HasFewLists }
    ensures two { IfSome result HasTwoDeltas }
{
    let [name, words @ ..] = words else {
        return None;
    };
    match name.as_str() {
        "show" => show_of(words),
        "list" => list_of(words),
        "check" => check_of(words),
        "apply" => apply_of(words),
        "write" => write_of(words),
        "run" => run_of(words),
        "gen" => gen_of(words),
        "compact" => compact_of(words),
        "merge" => merge_of(words),
        _ => None,
    }
}
