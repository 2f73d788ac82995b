// The set that a call makes active, with what its tests have left of the board: the number of its colours and the
// calling domain.
ghost use Rattle.std.specs.Prelude.{◌≡◌, true, ◌<◌};
ghost use Rattle.colours.specs.Cache.{is_colour_count};

#[derive(Clone, Copy, Debug, PartialEq, Eq)]
pub struct NewSet {
    pub domain: u32,
    pub colours: usize,
    pub set: u32,
    ghost counted: { is_colour_count colours ≡ true },
    ghost low: { domain < 8 },
}
