ghost use Rattle.std.specs.Prelude.{◌≡◌, [], ◌∷◌};
ghost use Rattle.wire.specs.Records.{Grew, kept, free_places};

// A list in handed memory: it holds the first items that fit, and counts all, to 2^32 − 1.
#[derive(Drop)]
pub struct Record<'a, T> {
    places: &'a mut [T],
    count: u32,
}

impl<'a, T: Copy> Record<'a, T> {
    // An empty list over these places.
    pub fn new(places: &'a mut [T]) -> Record<'a, T>
        ensures held { kept result ≡ record { places = places.entry.now; count = 0 } }
        ensures same { result.places.ghost_name ≡ places.entry.ghost_name }
    {
        Record { places, count: 0 }
    }
}

impl<T: Copy> Record<'_, T> {
    // Notes one item.
    pub fn note(&mut self, item: T)
        ensures { Grew self.old self.new (item ∷ []) }
    {
        if self.count == u32::MAX {
            return;
        }
        let at = self.count as usize;
        if at < self.places.len() {
            self.places[at] = item;
        }
        self.count += 1;
    }

    // How many places are free.
    pub fn free(&self) -> usize
        ensures { result ≡ free_places (kept self.now) }
    {
        self.places
            .len()
            .min(u32::MAX as usize)
            .saturating_sub(self.count as usize)
    }

    // How many items came, to 2^32 − 1.
    pub fn count(&self) -> u32
        ensures { result ≡ (kept self.now).count }
    {
        let Record { count, .. } = self;
        *count
    }
}
