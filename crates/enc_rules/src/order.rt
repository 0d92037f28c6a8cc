//! The first edit that breaks a rule, and the first rule that it breaks.
ghost use Rattle.std.specs.Prelude.{◌≡◌, ◌<◌, ◌^◌, IfSome};
ghost use Rattle.enc_rules.specs.Sooner.{sooner};

/// What is told so far, or the first place at which another rule is broken, from 0, where that is sooner.
/// Edits are counted from 1, and of one edit the rule that is told first stays.
pub fn sooner(told: Option<(u8, u32)>, rule: u8, place: Option<u32>) -> Option<(u8, u32)>
    requires { IfSome place (λ k. k < 2 ^ 24) }
    ensures { result ≡ sooner told rule place }
{
    let Some(k) = place else {
        return told;
    };
    match told {
        None => Some((rule, k + 1)),
        Some((before, edit)) => {
            if k + 1 < edit {
                return Some((rule, k + 1));
            }
            Some((before, edit))
        }
    }
}
