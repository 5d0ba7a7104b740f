// Labels out of the parities of all steps.
ghost use Rattle.std.specs.Prelude.{◌≡◌, ◌+◌, ◌*◌, ◌<◌, ◌≤◌, ◌^◌, ℕ, length, slice_index, vec_capacity, vec_len};
ghost use Rattle.spec_words.specs.Bits.{is_set};
ghost use Rattle.inner_chain.specs.Tables.{AppendsGathered, AreGathered, AreWithin, IsGathered, read_bit};

// A label moved up by one place, and a bit in the place that becomes free.
fn with_bit(label: u8, bit: bool) -> u8
    requires { label < 128 }
    ensures small { (n : ℕ) → label < 2 ^ n → result < 2 ^ (n + 1) }
    ensures above { (e : ℕ) → is_set result (e + 1) ≡ is_set label e }
    ensures here { is_set result 0 ≡ bit }
{
    2 * label + bit as u8
}

// The bit that an entry names.
fn entered(bits: &[bool], entries: &[u16], place: usize) -> bool
    requires place { place < length entries.now }
    requires entries { AreWithin entries.now (length bits.now) }
    ensures { result ≡ read_bit bits.now (slice_index entries.now place) }
{
    bits[entries[place] as usize]
}

// The label whose bits are those that `COUNT` entries name. The highest bit comes first, so that each takes one shift
// by one place.
fn gathered<const COUNT: u8>(bits: &[bool], entries: &[u16], first: usize) -> u8
    requires count { COUNT ≤ 6 }
    requires room { first + COUNT ≤ length entries.now }
    requires entries { AreWithin entries.now (length bits.now) }
    ensures { IsGathered bits.now entries.now first COUNT result }
{
    let mut label = 0;
    for e in 0..COUNT {
        label = with_bit(
            label,
            entered(bits, entries, first + (COUNT - 1 - e) as usize),
        );
    }
    label
}

// Appends the labels of `number` places, each of `COUNT` entries.
pub(crate) fn push_labels<const COUNT: u8>(
    bits: &[bool],
    entries: &[u16],
    number: usize,
    to: &mut Vec<u8>,
)
    requires count { COUNT ≤ 6 }
    requires number { number ≤ 65536 }
    requires room { number * COUNT ≤ length entries.now }
    requires entries { AreWithin entries.now (length bits.now) }
    requires spare { vec_len to.old + number ≤ vec_capacity to.old }
    ensures labels { AppendsGathered bits.now entries.now number COUNT to.old.items to.new.items }
    ensures capacity { vec_capacity to.new ≡ vec_capacity to.old }
{
    for place in 0..number {
        to.push_reserved(gathered::<COUNT>(bits, entries, place * COUNT as usize));
    }
}

// Writes as many labels as the slice has places, each of `COUNT` entries.
pub(crate) fn write_labels<const COUNT: u8>(bits: &[bool], entries: &[u16], to: &mut [u8])
    requires count { COUNT ≤ 6 }
    requires number { length to.old ≤ 65536 }
    requires room { length to.old * COUNT ≤ length entries.now }
    requires entries { AreWithin entries.now (length bits.now) }
    ensures long { length to.new ≡ length to.old }
    ensures labels { AreGathered bits.now entries.now (length to.old) COUNT to.new }
{
    for place in 0..to.len() {
        to[place] = gathered::<COUNT>(bits, entries, place * COUNT as usize);
    }
}
