//! Places in lists, and which of them is none.

ghost use Rattle.std.specs.Prelude.{◌≡◌, ◌<◌, Some, None};
ghost use Rattle.std.specs.Option.{is_some};

/// How many places there can be: all numbers of 32 bits but this one, which stands for no place.
pub const MOST_PLACES: u32 = 4_294_967_295;

/// A place in a list, or none. It takes four bytes, half of an `Option<u32>`.
#[derive(Clone, Copy)]
pub struct OptionalPlace {
    /// The place, or `MOST_PLACES` for none.
    number: u32,
}

impl OptionalPlace {
    ghost use Rattle.gm_name_table.specs.OptionalPlaces.{no_place, place_in};

    /// No place.
    #[inline(always)]
    pub fn none() -> OptionalPlace
        ensures { result ≡ no_place }
    {
        OptionalPlace {
            number: MOST_PLACES,
        }
    }

    /// This place.
    #[inline(always)]
    pub fn some(place: u32) -> OptionalPlace
        requires { place < 4294967295 }
        ensures { place_in result ≡ Some place }
    {
        OptionalPlace { number: place }
    }

    /// Whether there is a place.
    #[inline(always)]
    pub fn is_some(self) -> bool
        ensures { result ≡ is_some (place_in self) }
    {
        self.number != MOST_PLACES
    }

    /// The place, or `None` if there is none.
    #[inline(always)]
    pub fn get(self) -> Option<u32>
        ensures { result ≡ place_in self }
    {
        if self.number == MOST_PLACES {
            None
        } else {
            Some(self.number)
        }
    }
}
