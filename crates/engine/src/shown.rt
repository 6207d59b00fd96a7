// The numbers that are shown, as far as there is room.
ghost use Rattle.std.specs.Prelude.{◌≡◌, ℕ, List, [], ◌∷◌, ◌++◌};
ghost use Rattle.engine.specs.Shown.{overlay, counted};

// Writes down one more number, if there is room, and counts it.
pub fn write_down(shown: &mut [u32], total: usize, value: u32) -> usize
    ensures { (ns old : List ℕ) → shown.old ≡ overlay ns old → total ≡ counted ns → (shown.new ≡ overlay (ns ++ (value ∷ [])) old) × (result ≡ counted (ns ++ (value ∷ []))) }
{
    if total < shown.len() {
        shown[total] = value;
    }
    total.saturating_add(1)
}
