//! What received words contribute to the symbols of the keys after them.

ghost use Rattle.std.specs.Prelude.{◌≡◌, ◌+◌, ◌-◌, ◌*◌, ◌^◌, ◌<◌, ◌≤◌, ℕ, length, slice_index, All};
ghost use Rattle.dc_spec.specs.Words.{IsSymbol, IsWord, AreWords};
ghost use Rattle.dc_key_rules.specs.PairKeys.{symbols};
ghost use Rattle.dc_keys.specs.StationPads.{history_sum};
ghost use Rattle.dc_conv.specs.Mask.{products_from};

use dc_field::Word;

/// Adds to each sum the products of the symbols of some words with second pads. The first of the
/// sums is that of the symbol that follows the words. The words are added in groups of 32.
pub(crate) fn add_words(sums: &mut [u64], second: &[u32], words: &[Word])
    requires within { 16 * length words.now + length sums.old ≤ length second.now }
    requires symbols { All IsSymbol second.now }
    requires room { (i : ℕ) →
        slice_index sums.old i + 68719476736 * length words.now < 2 ^ 64 }
    ensures words { AreWords words.now }
    ensures added { (i : ℕ) → i < length sums.old →
        slice_index sums.new i
        ≡ slice_index sums.old i + history_sum second.now words.now (16 * length words.now + i) }
    ensures grown { (i : ℕ) →
        slice_index sums.new i ≤ slice_index sums.old i + 68719476736 * length words.now }
{
    let mut done = 0;
    while done < words.len() {
        let end = words.len().min(done + 32);
        let ahead = 16 * (words.len() - end);
        add_group(sums, &second[ahead..], &words[done..end]);
        done = end;
    }
}

/// As `add_words`, for at most 32 words.
fn add_group(sums: &mut [u64], second: &[u32], words: &[Word])
    requires few { length words.now ≤ 32 }
    requires within { 16 * length words.now + length sums.old ≤ length second.now }
    requires symbols { All IsSymbol second.now }
    requires room { (i : ℕ) →
        slice_index sums.old i + 68719476736 * length words.now < 2 ^ 64 }
    ensures words { AreWords words.now }
    ensures added { (i : ℕ) → i < length sums.old →
        slice_index sums.new i
        ≡ slice_index sums.old i + history_sum second.now words.now (16 * length words.now + i) }
    ensures grown { (i : ℕ) →
        slice_index sums.new i ≤ slice_index sums.old i + 68719476736 * length words.now }
{
    let factors = turned(words);
    add_products(sums, second, &factors[..16 * words.len()]);
}

/// The symbols of at most 32 words, the last symbol first, so that factors and pads go the same
/// way. Zeros follow.
fn turned(words: &[Word]) -> [u64; 512]
    requires few { length words.now ≤ 32 }
    ensures words { AreWords words.now }
    ensures value { (k : ℕ) → k < 16 * length words.now →
        slice_index result k
        ≡ slice_index (symbols words.now) (16 * length words.now - 1 - k) }
    ensures small { (k : ℕ) → slice_index result k ≤ 65536 }
{
    let mut factors = [0u64; 512];
    for t in 0..words.len() {
        let end = 16 * (words.len() - t);
        turn(&mut factors[end - 16..end], &words[t]);
    }
    factors
}

/// Writes the symbols of a word to sixteen places, the last symbol first.
fn turn(places: &mut [u64], w: &Word)
    requires sixteen { length places.old ≡ 16 }
    ensures word { IsWord w.now }
    ensures value { (k : ℕ) → k < 16 → slice_index places.new k ≡ slice_index w.now (15 - k) }
    ensures small { (k : ℕ) → slice_index places.new k ≤ 65536 }
{
    let numbers = w.numbers();
    for l in 0..16 {
        places[l] = u64::from(numbers[15 - l]);
    }
}

/// Adds to each sum the products of at most 512 factors with as many pads. Those of the first sum
/// begin with pad 1, and those of each later sum one pad later. The pads are widened once for 512
/// sums.
fn add_products(sums: &mut [u64], pads: &[u32], factors: &[u64])
    requires few { length factors.now ≤ 512 }
    requires within { length factors.now + length sums.old ≤ length pads.now }
    requires symbols { All IsSymbol pads.now }
    requires factors_small { (k : ℕ) → slice_index factors.now k ≤ 65536 }
    requires room { (i : ℕ) →
        slice_index sums.old i + 4294967296 * length factors.now < 2 ^ 64 }
    ensures added { (i : ℕ) → i < length sums.old →
        slice_index sums.new i
        ≡ slice_index sums.old i + products_from pads.now factors.now (i + 1) }
    ensures grown { (i : ℕ) →
        slice_index sums.new i ≤ slice_index sums.old i + 4294967296 * length factors.now }
{
    let mut done = 0;
    while done < sums.len() {
        let end = sums.len().min(done + 512);
        add_part(&mut sums[done..end], &pads[done..], factors);
        done = end;
    }
}

/// As `add_products`, for at most 512 sums.
fn add_part(sums: &mut [u64], pads: &[u32], factors: &[u64])
    requires most { length sums.old ≤ 512 }
    requires few { length factors.now ≤ 512 }
    requires within { length factors.now + length sums.old ≤ length pads.now }
    requires symbols { All IsSymbol pads.now }
    requires factors_small { (k : ℕ) → slice_index factors.now k ≤ 65536 }
    requires room { (i : ℕ) →
        slice_index sums.old i + 4294967296 * length factors.now < 2 ^ 64 }
    ensures added { (i : ℕ) → i < length sums.old →
        slice_index sums.new i
        ≡ slice_index sums.old i + products_from pads.now factors.now (i + 1) }
    ensures grown { (i : ℕ) →
        slice_index sums.new i ≤ slice_index sums.old i + 4294967296 * length factors.now }
{
    let wide = widened(&pads[..factors.len() + sums.len()]);
    let mut done = 0;
    while done < sums.len() {
        let end = sums.len().min(done + 8);
        add_tile(
            &mut sums[done..end],
            &wide[done + 1..done + factors.len() + 8],
            factors,
        );
        done = end;
    }
}

/// At most 1024 pads, each in 64 bits, so that a product takes them as they lie in memory. Zeros
/// follow, as many as the last eight sums of a part may read.
fn widened(pads: &[u32]) -> [u64; 1032]
    requires few { length pads.now ≤ 1024 }
    requires symbols { All IsSymbol pads.now }
    ensures value { (k : ℕ) → k < length pads.now →
        slice_index result k ≡ slice_index pads.now k }
    ensures small { (k : ℕ) → slice_index result k ≤ 65536 }
{
    let mut wide = [0u64; 1032];
    for k in 0..pads.len() {
        wide[k] = u64::from(pads[k]);
    }
    wide
}

/// Adds to at most eight sums the products of the factors with as many pads. Those of each sum
/// begin one pad later than those of the sum before.
fn add_tile(sums: &mut [u64], pads: &[u64], factors: &[u64])
    requires most { length sums.old ≤ 8 }
    requires few { length factors.now ≤ 512 }
    requires pads { length pads.now ≡ length factors.now + 7 }
    requires pads_small { (k : ℕ) → slice_index pads.now k ≤ 65536 }
    requires factors_small { (k : ℕ) → slice_index factors.now k ≤ 65536 }
    requires room { (i : ℕ) →
        slice_index sums.old i + 4294967296 * length factors.now < 2 ^ 64 }
    ensures added { (i : ℕ) → i < length sums.old →
        slice_index sums.new i ≡ slice_index sums.old i + products_from pads.now factors.now i }
    ensures grown { (i : ℕ) →
        slice_index sums.new i ≤ slice_index sums.old i + 4294967296 * length factors.now }
{
    let more = eight_sums(pads, factors);
    for i in 0..sums.len() {
        sums[i] += more[i];
    }
}

/// Eight sums of products of the factors with pads, which begin at the first eight pads in turn.
fn eight_sums(pads: &[u64], factors: &[u64]) -> [u64; 8]
    requires few { length factors.now ≤ 512 }
    requires pads { length pads.now ≡ length factors.now + 7 }
    requires pads_small { (k : ℕ) → slice_index pads.now k ≤ 65536 }
    requires factors_small { (k : ℕ) → slice_index factors.now k ≤ 65536 }
    ensures value { (i : ℕ) → i < 8 →
        slice_index result i ≡ products_from pads.now factors.now i }
    ensures small { (i : ℕ) → slice_index result i ≤ 4294967296 * length factors.now }
{
    let mut totals = [0u64; 8];
    for k in 0..factors.len() {
        add_scaled(&mut totals, &pads[k..k + 8], factors[k]);
    }
    totals
}

/// Adds to each of eight totals one of eight pads, multiplied by a factor.
fn add_scaled(totals: &mut [u64; 8], pads: &[u64], factor: u64)
    requires eight { length pads.now ≡ 8 }
    requires pads_small { (l : ℕ) → slice_index pads.now l ≤ 65536 }
    requires factor { factor ≤ 65536 }
    requires room { (l : ℕ) → slice_index totals.old l + 4294967296 < 2 ^ 64 }
    ensures added { (l : ℕ) → l < 8 →
        slice_index totals.new l ≡ slice_index totals.old l + slice_index pads.now l * factor }
    ensures grown { (l : ℕ) → slice_index totals.new l ≤ slice_index totals.old l + 4294967296 }
{
    for l in 0..8 {
        totals[l] += product(pads[l], factor);
    }
}

/// The product of a pad and a factor. The masks change nothing: they show the compiler small
/// numbers, so that it multiplies numbers of 32 bits.
fn product(pad: u64, factor: u64) -> u64
    requires pad { pad ≤ 65536 }
    requires factor { factor ≤ 65536 }
    ensures value { result ≡ pad * factor }
    ensures small { result ≤ 4294967296 }
{
    (pad & 0xffff_ffff) * (factor & 0xffff_ffff)
}
