// What a sheet carries by value: its first item, and how many items and units are in use. Its buffers are lent beside it and not held in
// one struct with it: calls write the items, or both, or neither, so three structs would be no plainer than two slices.
ghost use Rattle.std.specs.Prelude.{◌≡◌};
ghost use Rattle.layout.specs.Heads.{fresh_head, grown_head};

#[derive(Clone, Copy)]
pub struct Head {
    pub first: u32,
    pub items: u32,
    pub units: u32,
}

impl Head {
    pub const ITEMS: u32 = 2048;

    pub const UNITS: u32 = 16384;
    // The link that ends a list.
    pub const END: u32 = 4095;

    pub fn fresh() -> Head
        ensures { result ≡ fresh_head }
    {
        Head {
            first: Head::END,
            items: 0,
            units: 0,
        }
    }

    // The one place where a changed head is built, by the definition `grown_head`, which says of a head that it grew.
    pub fn grown(self, first: u32, items: u32, units: u32) -> Head
        ensures { result ≡ grown_head self first items units }
    {
        Head {
            first,
            items,
            units,
        }
    }
}
