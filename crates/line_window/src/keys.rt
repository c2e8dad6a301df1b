//! Where the keys of a search come from, one key a read.
//!
//! A read never changes the list: it may only cost, and the number of reads says how much.

ghost use Rattle.std.specs.Prelude.{◌≡◌, ℕ, ◌+◌, ◌<◌, ◌≤◌, ◌↔◌, List, length, slice_index, IsTrue, refl};
ghost use Rattle.std.proofs.Common.{◌∙◌};
ghost use Rattle.std.specs.List.Sorted.{IsStrictlyIncreasing};

/// A list of keys that is read one key at a time.
pub trait Keys {
    // The keys, in the order of their places.
    ghost list: { Self → List ℕ };

    // What this reader was made with, which no read changes.
    ghost Origin: { Type 0 } = { Unit {0} };

    ghost origin: { Self → Origin };

    // How many reads were made since.
    ghost reads: { Self → ℕ };

    // Reads alone lead from the first to the second.
    ghost leads_to: { Self → Self → Type 0 };

    fn len(&self) -> usize
        ensures { result ≡ length (list self.now) };

    fn key(&mut self, i: usize) -> u64
        requires { i < length (list self.old) }
        ensures key { result ≡ slice_index (list self.old) i }
        ensures list { list self.new ≡ list self.old }
        ensures origin { origin self.new ≡ origin self.old }
        ensures reads_kept { reads self.old ≤ reads self.new }
        ensures reads_raised { reads self.new ≤ reads self.old + 1 }
        ensures leads { leads_to self.old self.new };

    // No read is needed to stay, and reads behind reads are reads.
    ghost leads_to_itself: { (s : Self) → leads_to s s };

    ghost leads_on: { (s t u : Self) → leads_to s t → leads_to t u → leads_to s u };
}

impl Keys for &[u64] {
    ghost list = { λ s. s.now };

    ghost origin = { λ _. tt };

    ghost reads = { λ _. 0 };

    ghost leads_to = { λ s t. t.now ≡ s.now };

    ghost leads_to_itself = { λ _. refl };

    ghost leads_on = { λ _ _ _ first second. second ∙ first };

    #[inline]
    fn len(&self) -> usize {
        (*self).len()
    }

    #[inline]
    fn key(&mut self, i: usize) -> u64 {
        self[i]
    }
}

/// Whether each key is below the next, as a search requires of its keys.
pub fn is_rising(keys: &[u64]) -> bool
    ensures { IsTrue result ↔ IsStrictlyIncreasing keys.now }
{
    for place in 1..keys.len() {
        if keys[place] <= keys[place - 1] {
            return false;
        }
    }
    true
}
