//! Places that follow one another.

ghost use Rattle.std.specs.Prelude.{◌≤◌};

/// Places that follow one another.
#[derive(Clone, Copy)]
pub(crate) struct Places {
    next: usize,
    end: usize,
    ghost ordered: { next ≤ end },
}

impl Places {
    ghost use Rattle.std.specs.Prelude.{◌≡◌, ◌∷◌, [], MatchOption};
    ghost use Rattle.std.specs.List.{range_with_len};
    ghost use Rattle.dt_names.specs.Inner.Places.{places_in};

    /// The places from 0, so many.
    pub(crate) fn below(count: usize) -> Places
        ensures { places_in result ≡ range_with_len 0 count }
    {
        Places {
            next: 0,
            end: count,
        }
    }

    /// The first place, and those behind it.
    pub(crate) fn split_first(self) -> Option<(usize, Places)>
        ensures { MatchOption result (places_in self ≡ [])
            (λ r. places_in self ≡ r.0 ∷ places_in r.1) }
    {
        if self.next == self.end {
            return None;
        }
        let rest = Places {
            next: self.next + 1,
            end: self.end,
        };
        Some((self.next, rest))
    }
}
