//! Lines that break a rule, and which of them comes first.

ghost use Rattle.std.specs.Prelude.{◌≡◌};
ghost use Rattle.net_refusals.specs.Refusals as refusals;

/// The earlier of two lines, where there are any.
pub fn earlier(a: Option<u32>, b: Option<u32>) -> Option<u32>
    ensures { result ≡ refusals.earlier a b }
{
    match (a, b) {
        (None, b) => b,
        (a, None) => a,
        (Some(a), Some(b)) => Some(a.min(b)),
    }
}

/// The line of a part that breaks a rule.
pub fn line_if(broken: bool, line: u32) -> Option<u32>
    ensures { result ≡ refusals.line_if broken line }
{
    if broken { Some(line) } else { None }
}
