//! Link words, counter words and gate words.

ghost use Rattle.std.specs.Prelude.{◌≡◌, ℕ, ◌+◌, ◌*◌, ◌/◌, ◌%◌, ◌^◌, ◌<◌, ◌≤◌, ◌↔◌, pos, negsuc, ◌≤ℤ◌, IsNone, IfSome};
ghost use Rattle.std.specs.Option.{ForSome};
ghost use Rattle.orc_words.specs.Packed.{named, link_word, link_of, counter_word, counter_of, gate_word, gate_of};

/// What one more link adds to a counter word: 1 to the count, and 1 to the sequence.
pub const INCREMENT: u64 = 16_777_217;

/// What one link fewer adds to a counter word: -1 to the count, and 1 to the sequence.
pub const DECREMENT: u64 = 16_777_215;

/// The retired bit of a counter word.
pub const RETIRED: u64 = 8_388_608;

/// The counter word of a new row: count 0, no retired bit, sequence 0.
pub const NEW_COUNTER: u64 = 4_194_304;

/// A link to a row, or to none, with or without a mark.
#[derive(Clone, Copy, Debug, PartialEq, Eq)]
pub struct RowLink {
    pub to: Option<u32>,
    pub mark: bool,
}

/// What a counter word says of its row: the count of links, the retired bit, and the sequence, which
/// each change of the count raises by one.
#[derive(Clone, Copy, Debug, PartialEq, Eq)]
pub struct Counter {
    pub count: i32,
    pub retired: bool,
    pub sequence: u64,
}

/// What a gate word says of its row: how many times it was given, and whether it is out.
#[derive(Clone, Copy, Debug, PartialEq, Eq)]
pub struct RowGate {
    pub life: u64,
    pub out: bool,
}

/// The row that a slot or handover word names. 0 and what is above 65,535 name none.
pub fn named(number: u64) -> Option<u32>
    ensures { result ≡ named number }
{
    if number == 0 || number > 65_535 {
        None
    } else {
        Some((number - 1) as u32)
    }
}

/// The word of a link to a row below 65,535, or of a null link.
pub fn pack_link(link: RowLink) -> u64
    requires { ForSome link.to (λ row. row < 65535) }
    ensures word { result ≡ link_word link }
    ensures read { link_of result ≡ link }
    ensures inside { result ≤ 131071 }
{
    let target = match link.to {
        None => 0,
        Some(row) => 2 * (u64::from(row) + 1),
    };
    if link.mark { target + 1 } else { target }
}

/// None for a word that is no link word.
pub fn read_link(word: u64) -> Option<RowLink>
    ensures outside { IsNone result ↔ (131071 < word) }
    ensures link { IfSome result (λ link. link ≡ link_of word) }
    ensures packed { IfSome result (λ link. link_word link ≡ word) }
{
    if word > 131_071 {
        return None;
    }
    Some(RowLink {
        to: named(word / 2),
        mark: word % 2 == 1,
    })
}

/// The word of a count from -2^22 to 2^22 - 1 and a sequence below 2^40.
pub fn pack_counter(counter: Counter) -> u64
    requires low { negsuc 4194303 ≤ℤ counter.count }
    requires high { counter.count ≤ℤ pos 4194303 }
    requires sequence { counter.sequence < 2 ^ 40 }
    ensures word { result ≡ counter_word counter }
    ensures read { counter_of result ≡ counter }
{
    let count = (counter.count + 4_194_304) as u64;
    let retired: u64 = if counter.retired { 8_388_608 } else { 0 };
    counter.sequence * 16_777_216 + retired + count
}

/// The counter that a word stands for; each word stands for one.
pub fn read_counter(word: u64) -> Counter
    ensures counter { result ≡ counter_of word }
    ensures packed { counter_word result ≡ word }
{
    Counter {
        count: (word % 8_388_608) as i32 - 4_194_304,
        retired: word / 8_388_608 % 2 == 1,
        sequence: word / 16_777_216,
    }
}

/// The word of a gate whose life is below 2^62.
pub fn pack_gate(gate: RowGate) -> u64
    requires { gate.life < 2 ^ 62 }
    ensures word { result ≡ gate_word gate }
    ensures read { gate_of result ≡ gate }
{
    if gate.out {
        2 * gate.life + 1
    } else {
        2 * gate.life
    }
}

/// The gate that a word stands for; each word stands for one.
pub fn read_gate(word: u64) -> RowGate
    ensures gate { result ≡ gate_of word }
    ensures packed { gate_word result ≡ word }
{
    RowGate {
        life: word / 2,
        out: word % 2 == 1,
    }
}
