// Words against outside values: worked values, the results of an independent program, and a plain search.

ghost use Rattle.std.specs.Prelude.{◌<◌, ◌≤◌, IsTrue};
ghost use Rattle.std.specs.List.{All};
ghost use Rattle.std.specs.List.Sorted.{IsStrictlyIncreasing};

use super::words::product_of;
use rs_erasure::{Erased, decode_erased, laws};
use rs204::encode;
use test_tools::{checksum, next_number};

// Whether positions are valid erasures.
fn may_be_erased(places: &[u8; 8]) -> bool
    ensures rising { IsTrue result → IsStrictlyIncreasing places.now }
    ensures within { IsTrue result → All (λ e. e < 204) places.now }
{
    for k in 0..8usize {
        if places[k] >= 204 || k < 7 && places[k] >= places[k + 1] {
            return false;
        }
    }
    true
}

// The outcome of a word, if the positions are valid erasures.
fn decoded(word: &mut [u8; 204], places: &[u8; 8]) -> Option<Erased> {
    if may_be_erased(places) {
        Some(decode_erased(word, places))
    } else {
        None
    }
}

// Whether this is the outcome for the word, and this the word afterwards.
fn finds(received: &[u8; 204], places: &[u8; 8], answer: Erased, left: &[u8; 204]) -> bool {
    let mut word = *received;
    decoded(&mut word, places) == Some(answer) && word == *left
}

#[test]
fn erased_and_wrong_bytes(rt: HostRuntime) {
    laws::one_outside();
    let mut word = [0u8; 204];
    for k in 0..12usize {
        word[k] = if k < 8 { 0xFF } else { 1 };
    }
    let places = [0, 1, 2, 3, 4, 5, 6, 7];
    assert!(rt; finds(&word, &places, Erased::Found(4), &[0; 204]));
}

// Those of the last thirteen positions, at most eight, that the bits of a number select.
fn of_the_last(choice: u32) -> [u8; 8] {
    let mut places = [0u8; 8];
    let mut count = 0usize;
    for k in 0..13u8 {
        if (choice >> k) % 2 == 1 && count < 8 {
            places[count] = 191 + k;
            count += 1;
        }
    }
    places
}

// Every choice of eight of the thirteen positions that are not 0, and others.
#[test]
fn no_word_for_any_places(rt: HostRuntime) {
    let received = product_of(12);
    let mut choices = 0u32;
    for choice in 0..8192u32 {
        if choice.count_ones() == 8 {
            assert!(rt; finds(&received, &of_the_last(choice), Erased::NoWord, &received));
            choices = choices.wrapping_add(1);
        }
    }
    assert_eq!(rt; choices, 1287);
    let mut seed = 1u32;
    for case in 0..240u32 {
        let places = drawn_places(&mut seed, 1 + case % 24);
        assert!(rt; finds(&received, &places, Erased::NoWord, &received));
    }
}

// The next number below n, of a linear congruential sequence.
fn draw(seed: &mut u32, n: u32) -> u32
    requires { 0 < n }
    ensures { result < n }
{
    (next_number(seed) >> 8) % n
}

fn drawn_byte(seed: &mut u32) -> u8 {
    draw(seed, 256) as u8
}

fn drawn_change(seed: &mut u32) -> u8 {
    1 + draw(seed, 255) as u8
}

// Eight random positions, each at most `apart` after the one before.
fn drawn_places(seed: &mut u32, apart: u32) -> [u8; 8]
    requires some { 0 < apart }
    requires few { apart ≤ 24 }
{
    let mut at = draw(seed, 204 - 7 * apart);
    let mut places = [0u8; 8];
    for k in 0..8usize {
        places[k] = (at % 256) as u8;
        at = at.wrapping_add(1 + draw(seed, apart));
    }
    places
}

fn drawn_codeword(seed: &mut u32) -> [u8; 204] {
    let mut message = [0u8; 188];
    for byte in message.iter_mut() {
        *byte = drawn_byte(seed);
    }
    encode(&message)
}

// Changes the first `wrong` erased positions, and `errors` others.
fn disturb(word: &mut [u8; 204], erased: &[u8; 8], wrong: u32, errors: u32, seed: &mut u32) {
    for k in 0..8u32 {
        let place = erased[k as usize] as usize;
        if k < wrong && place < 204 {
            word[place] ^= drawn_change(seed);
        }
    }
    let start = draw(seed, 204);
    let mut left = errors;
    for k in 0..204u32 {
        let place = ((start + 25 * k) % 204) as u8;
        if left > 0 && !erased.contains(&place) {
            word[place as usize] ^= drawn_change(seed);
            left -= 1;
        }
    }
}

// Words close to a codeword other than the one they were made from: the number of the word, the number of positions
// outside the erasures where the codeword differs, and the sum of the codeword's bytes, each sum times 31. An
// independent program found them by elimination, and its search over all sets of four positions found no others.
type Other = (u32, u8, u32);

const OF_FIVE_ERRORS: [Other; 4] = [
    (113, 4, 0x8E786168),
    (215, 4, 0xE5C4D7B0),
    (635, 4, 0xF8F82BA0),
    (869, 4, 0x3B79BB00),
];

const OF_RANDOM_BYTES: [Other; 2] = [(35, 4, 0xC9E3C2E6), (61, 4, 0x85FA6AE4)];

// The other program's result for a word.
fn other(others: &[Other], case: u32) -> Option<(u8, u32)> {
    for (number, count, sum) in others {
        if *number == case {
            return Some((*count, *sum));
        }
    }
    None
}

// Whether no codeword is found for this word except that of the other program.
fn finds_as_others(received: &[u8; 204], places: &[u8; 8], others: &[Other], case: u32) -> bool {
    if let Some((count, sum)) = other(others, case) {
        let mut word = *received;
        return decoded(&mut word, places) == Some(Erased::Found(count)) && checksum(&word) == sum;
    }
    finds(received, places, Erased::NoWord, received)
}

// A codeword of a random message with 0 to 5 errors outside random positions and 0 to 8 in them.
fn drawn_is_found(seed: &mut u32, case: u32) -> bool {
    let sent = drawn_codeword(seed);
    let places = drawn_places(seed, 1 + case % 24);
    let mut word = sent;
    disturb(&mut word, &places, case / 6 % 9, case % 6, seed);
    if case % 6 < 5 {
        return finds(&word, &places, Erased::Found((case % 6) as u8), &sent);
    }
    finds_as_others(&word, &places, OF_FIVE_ERRORS.as_slice(), case)
}

#[test]
fn drawn_codewords(rt: HostRuntime) {
    let mut seed = 1u32;
    for case in 0..1080u32 {
        assert!(rt; drawn_is_found(&mut seed, case), "word {case}");
    }
}

// A word of random bytes.
fn random_is_found(seed: &mut u32, case: u32) -> bool {
    let places = drawn_places(seed, 1 + case % 24);
    let mut word = [0u8; 204];
    for byte in word.iter_mut() {
        *byte = drawn_byte(seed);
    }
    finds_as_others(&word, &places, OF_RANDOM_BYTES.as_slice(), case)
}

#[test]
fn random_bytes(rt: HostRuntime) {
    let mut seed = 2u32;
    for case in 0..300u32 {
        assert!(rt; random_is_found(&mut seed, case), "word {case}");
    }
}

// Every second one of the sixteen bytes after a message.
const EVERY_SECOND: [u8; 8] = [188, 190, 192, 194, 196, 198, 200, 202];

// The number of positions where two words differ, except for EVERY_SECOND.
fn differences(a: &[u8; 204], b: &[u8; 204]) -> u8 {
    let mut count = 0u8;
    for k in 0..204u8 {
        if a[k as usize] != b[k as usize] && !EVERY_SECOND.contains(&k) {
            count = count.saturating_add(1);
        }
    }
    count
}

// The codeword that differs in at most four positions, if one does whose message differs at most at this position.
fn searched_at(word: &[u8; 204], place: usize) -> Option<[u8; 204]>
    requires { place < 188 }
{
    let mut message = [0u8; 188];
    message.copy_from_slice(&word[..188]);
    for value in 0..=255u8 {
        message[place] = value;
        let candidate = encode(&message);
        if differences(word, &candidate) <= 4 {
            return Some(candidate);
        }
    }
    None
}

// The codeword that differs in at most four positions, if one does whose message differs in at most one.
fn searched(word: &[u8; 204]) -> Option<[u8; 204]> {
    for place in 0..188usize {
        if let Some(found) = searched_at(word, place) {
            return Some(found);
        }
    }
    None
}

// A codeword with `in_message` wrong bytes in the message, `behind` wrong ones of the others after it, and all of
// EVERY_SECOND wrong.
fn word_with(seed: &mut u32, in_message: u32, behind: usize) -> [u8; 204]
    requires { behind ≤ 8 }
{
    let mut word = drawn_codeword(seed);
    for _ in 0..in_message {
        word[draw(seed, 188) as usize] ^= drawn_change(seed);
    }
    for k in 0..8usize {
        word[188 + 2 * k] ^= drawn_change(seed);
    }
    for k in 0..behind {
        word[189 + 2 * k] ^= drawn_change(seed);
    }
    word
}

// Whether decoding finds the result of a plain search.
fn finds_as_searched(word: &[u8; 204]) -> bool {
    match searched(word) {
        Some(near) => {
            let count = differences(word, &near);
            finds(word, &EVERY_SECOND, Erased::Found(count), &near)
        }
        None => finds(word, &EVERY_SECOND, Erased::NoWord, word),
    }
}

// The search finds each codeword close to these words.
#[test]
fn words_by_a_plain_search(rt: HostRuntime) {
    let mut seed = 3u32;
    for (in_message, behind) in [(0, 0), (0, 4), (1, 0), (1, 3), (1, 4), (0, 5), (0, 8usize)] {
        assert!(rt; behind <= 8);
        let word = word_with(&mut seed, in_message, behind);
        assert!(rt; finds_as_searched(&word), "{in_message} and {behind}");
    }
}
