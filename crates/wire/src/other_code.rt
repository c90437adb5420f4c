//! An abort code that has no name here.
ghost use Rattle.std.specs.Prelude.{◌≡◌, false};
ghost use Rattle.wire.specs.CodeNumbers.{is_listed};

/// A code without a name: its number is not listed, so that no code with a name has it. `AbortCode::from` alone makes one.
#[derive(Clone, Copy, PartialEq, Eq, Debug)]
pub struct OtherCode {
    pub(super) number: u32,
    ghost unlisted: { is_listed number ≡ false },
}
