// The A line of a listing.
ghost use Rattle.std.specs.Prelude.{◌<◌};

// Its numbers, which fit their fields.
#[derive(Clone, Copy)]
pub struct Head {
    pub number: u32,
    pub place: u32,
    pub figure: u32,
    ghost number_fits: { number < 100000 },
    ghost place_fits: { place < 100000 },
    ghost figure_fits: { figure < 100000 },
}
