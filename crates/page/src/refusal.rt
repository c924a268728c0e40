// Why a page is not read.
ghost use Rattle.std.specs.Prelude.{◌≡◌};

// The bytes are no page that this side could write.
#[derive(Clone, Copy, Debug, PartialEq, Eq)]
pub struct BadPage;

// The number that programs print: one behind those of the bookkeeping's refusals, which are another type.
impl From<BadPage> for u8 {
    ghost from_gives = { λ _ n. n ≡ 7 };

    fn from(_why: BadPage) -> u8 {
        7
    }
}
