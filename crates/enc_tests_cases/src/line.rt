//! A line of a case file.

/// What a line asks for.
#[derive(Clone, Copy, Debug)]
pub enum Line<'a> {
    /// Begins a case of this name.
    Case(&'a str),
    /// The store holds a file with these bytes, given by their hexadecimal digits.
    File {
        name: &'a str,
        digits: &'a str,
    },
    /// The store holds under a name the bytes that it holds under another.
    Same {
        name: &'a str,
        other: &'a str,
    },
    /// Shortens a file.
    Cut {
        name: &'a str,
        len: usize,
    },
    /// Overwrites bytes of a file from an offset on.
    Poke {
        name: &'a str,
        at: usize,
        digits: &'a str,
    },
    /// Runs the top call with words that are separated by single spaces.
    Run(&'a str),
    /// Runs the top call with these words once for each length of a file, cut to that length.
    Every {
        name: &'a str,
        words: &'a str,
    },
    /// Runs the top call with these words, each call of the store failing in turn, and then each of the sink.
    Faults(&'a str),
    /// A word in front of the next run's, by its bytes' digits.
    Word(&'a str),
    /// The watchers that are handed to the next run: their kinds, separated by single spaces.
    Watchers(&'a str),
    /// No line of a case file.
    Bad,
}

/// The two parts around the first space; the second is empty where there is none.
fn parts(text: &str) -> (&str, &str) {
    match text.split_once(' ') {
        Some((first, rest)) => (first, rest),
        None => (text, ""),
    }
}

fn cut(rest: &str) -> Line<'_> {
    let (name, len) = parts(rest);
    match len.parse::<usize>() {
        Ok(len) => Line::Cut { name, len },
        Err(_) => Line::Bad,
    }
}

fn poke(rest: &str) -> Line<'_> {
    let (name, rest) = parts(rest);
    let (at, digits) = parts(rest);
    match at.parse::<usize>() {
        Ok(at) => Line::Poke { name, at, digits },
        Err(_) => Line::Bad,
    }
}

impl<'a> Line<'a> {
    /// Reads a line.
    pub fn of(text: &'a str) -> Line<'a> {
        let (keyword, rest) = parts(text);
        let (name, behind) = parts(rest);
        match keyword {
            "case" => Line::Case(rest),
            "file" => Line::File {
                name,
                digits: behind,
            },
            "same" => Line::Same {
                name,
                other: behind,
            },
            "cut" => cut(rest),
            "poke" => poke(rest),
            "run" => Line::Run(rest),
            "every" => Line::Every {
                name,
                words: behind,
            },
            "faults" => Line::Faults(rest),
            "word" => Line::Word(rest),
            "watchers" => Line::Watchers(rest),
            _ => Line::Bad,
        }
    }
}
