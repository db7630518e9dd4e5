// Slots of names.
ghost use Rattle.std.specs.Prelude.{◌≡◌, ℕ, List, true};
ghost use Rattle.pyx.specs.plain.NamespacesSlots.{hash_of, is_met};

/// The number of slots.
pub const SLOT_COUNT: usize = 4_096;

/// Returns a hash of the bytes of a text.
#[tactic(auto, unfolding(crate::specs::plain::NamespacesSlots::hash_of))]
#[inline(always)]
pub fn hash_of(text: &str) -> usize
    ensures { result ≡ hash_of text.now }
{
    let mut sum: u32 = 0;
    'bytes: for byte in text.as_bytes() {
        sum = (sum ^ (*byte as u32)).wrapping_mul(16_777_619);
    }
    (sum >> 8) as usize
}

/// Sets the slot of a name, and returns whether it was set already.
#[inline(always)]
pub fn mark(slots: &mut [bool; SLOT_COUNT], name: &str) -> bool
    ensures met { result ≡ is_met slots.old name.now }
    ensures set { is_met slots.new name.now ≡ true }
    ensures kept { (other : List ℕ) → is_met slots.old other ≡ true → is_met slots.new other ≡ true }
{
    let at = hash_of(name) % SLOT_COUNT;
    let met = slots[at];
    slots[at] = true;
    met
}
