// The places of a sheet's entries, in the order of its lines.
ghost use Rattle.std.specs.Prelude.{◌≡◌, ◌<◌, ◌≤◌};
ghost use Rattle.std.specs.Iterator.{YieldsFirst, item_count};
ghost use Rattle.sheet_text.specs.Place.{places};
ghost use Rattle.sheet_text.specs.inner.Next.{next_place, rest_from};

#[derive(Clone, Copy)]
pub struct Place {
    pub row: usize,
    pub column: usize,
}

impl Place {
    // Down the column, then to the next column's diagonal.
    pub fn next(self, n: usize) -> Place
        requires { (self.row < n) × (self.column < n) }
        ensures { result ≡ next_place n self }
    {
        let down = self.row + 1;
        if down < n {
            return Place {
                row: down,
                column: self.column,
            };
        }
        let right = self.column + 1;
        Place {
            row: right,
            column: right,
        }
    }
}

// The places of the lower triangle from `at` on.
#[derive(Drop)]
pub struct Places {
    order: usize,
    at: Place,
    ghost below: { at.column ≤ at.row },
    ghost within: { order ≤ at.row → order ≤ at.column },
}

impl Places {
    pub fn new(order: usize) -> Places
        ensures { rest_from result.order result.at ≡ places order }
    {
        Places {
            order,
            at: Place { row: 0, column: 0 },
        }
    }
}

impl Iterator for Places {
    type Item = Place;

    ghost next_gives = { YieldsFirst (λ s. rest_from s.order s.at) };

    ghost remaining = { item_count (λ s. rest_from s.order s.at) };

    fn next(&mut self) -> Option<Place> {
        if self.order <= self.at.row {
            return None;
        }
        let place = self.at;
        self.at = place.next(self.order);
        Some(place)
    }
}
