// What images, counts and buffers are made of.
ghost use Rattle.std.specs.Prelude.{◌≡◌, true};
ghost use Rattle.std.proofs.lemmas.Bool.{eqb-true};

// A word, a count or a byte: those that are found equal are the same.
pub trait Item: Copy + PartialEq {
    ghost same: { (a b : Self) → Self.eq a b ≡ true → a ≡ b };
}

impl Item for u8 {
    ghost same = { eqb-true };
}

impl Item for u16 {
    ghost same = { eqb-true };
}

impl Item for u32 {
    ghost same = { eqb-true };
}
