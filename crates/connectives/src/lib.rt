// Tests joined without a branch in the caller, as the definitions join them.
#![tactic(auto)]

ghost use Rattle.std.specs.Prelude.{◌≡◌, ◌&&◌, ◌||◌};
ghost use Rattle.paper.specs.Tests.{implies as if_then};

// Whether both hold.
pub fn both(a: bool, b: bool) -> bool
    ensures { result ≡ (a && b) }
{
    a & b
}

// Whether one of two holds.
pub fn either(a: bool, b: bool) -> bool
    ensures { result ≡ (a || b) }
{
    a | b
}

// Whether b holds where a does.
pub fn implies(a: bool, b: bool) -> bool
    ensures { result ≡ if_then a b }
{
    !a | b
}
