//! Words: their sums, their text and their bytes.

use dc_field::{
    Sym, SymFault, Word, WordFault, read_word, read_word_bytes, read_word_text, word_bytes,
    word_text,
};
use std::process::Abort;
use std::test::Fail;

/// A word of equal symbols.
fn all_equal(x: u32) -> Result<Word, Fail> {
    let symbol = Sym::new(x).ok_or("it is a symbol")?;
    let mut w = Word::zero();
    for l in 0..16 {
        w.set(l, symbol);
    }
    Ok(w)
}

/// Asserts the text of a word of equal symbols.
fn text_is<R: Abort>(rt: &R, x: u32, due: &[u8; 80]) -> Result<(), Fail> {
    assert_eq!(rt; word_text(&all_equal(x)?).as_slice(), due.as_slice());
    Ok(())
}

/// Asserts that all symbols of a word are this number.
fn is_all<R: Abort>(rt: &R, w: &Word, x: u32) {
    assert_eq!(rt; w.numbers().as_slice(), [x; 16].as_slice());
}

/// Asserts the word that a text spells.
fn text_spells<R: Abort>(rt: &R, text: &[u8], due: &[u32; 16]) -> Result<(), Fail> {
    let w = read_word_text(text).ok().ok_or("it is a word")?;
    assert_eq!(rt; w.numbers().as_slice(), due.as_slice());
    Ok(())
}

/// Asserts the fault of a text.
fn text_fault<R: Abort>(rt: &R, text: &[u8], due: WordFault) {
    assert_eq!(rt; read_word_text(text).err(), Some(due));
}

/// Asserts the word that sixty-four bytes spell, and that it is written so.
fn bytes_spell<R: Abort>(rt: &R, b: &[u8; 64], due: &[u32; 16]) -> Result<(), Fail> {
    let w = read_word_bytes(b).ok().ok_or("it is a word")?;
    assert_eq!(rt; w.numbers().as_slice(), due.as_slice());
    assert_eq!(rt; word_bytes(&w).as_slice(), b.as_slice());
    Ok(())
}

/// Asserts the fault of sixty-four bytes.
fn bytes_fault<R: Abort>(rt: &R, b: &[u8; 64], symbol: u8, seen: u32) {
    assert_eq!(rt; read_word(b).err(), Some(SymFault { symbol, seen }));
}

#[test]
fn words_as_text(rt: HostRuntime) -> Result<(), Fail> {
    text_is(&rt, 0, &[b'0'; 80])?;
    text_is(
        &rt,
        65536,
        b"10000100001000010000100001000010000100001000010000100001000010000100001000010000",
    )?;
    text_is(
        &rt,
        43981,
        b"0abcd0abcd0abcd0abcd0abcd0abcd0abcd0abcd0abcd0abcd0abcd0abcd0abcd0abcd0abcd0abcd",
    )
}

#[test]
fn texts_as_words(rt: HostRuntime) -> Result<(), Fail> {
    let mut due = [43981; 16];
    due[15] = 65536;
    text_spells(
        &rt,
        b"0abcd0abcd0abcd0abcd0abcd0abcd0abcd0abcd0abcd0abcd0abcd0abcd0abcd0abcd0abcd10000",
        &due,
    )
}

#[test]
fn first_faults_of_texts(rt: HostRuntime) {
    let last = WordFault::Digit { place: 79 };
    text_fault(
        &rt,
        b"0abcd0abcd0abcd0abcd0abcd0abcd0abcd0abcd0abcd0abcd0abcd0abcd0abcd0abcd0abcd0abcg",
        last,
    );
    text_fault(
        &rt,
        b"0abcd0abcd0abcd0abcd0abcd0abcd0abcd0abcd0abcd0abcd0abcd0abcd0abcd0abcd0abcd0abcA",
        last,
    );
    text_fault(
        &rt,
        b"0abcd0abcd0abcd0abcd0abcd0abcd0abcd1abcd0abcd0abcd0abcd0abcd0abcd0abcd0abcd0abc`",
        last,
    );
    text_fault(
        &rt,
        b"/abcd0abcd0abcd0abcd0abcd0abcd0abcd0abcd0abcd0abcd0abcd0abcd0abcd0abcd0abcd0abc:",
        WordFault::Digit { place: 0 },
    );
    text_fault(
        &rt,
        b"0abcd0abcd0abcd0abcd0abcd0abcd0abcd1abcd0abcd0abcd0abcd0abcd0abcd0abcd0abcdfabcd",
        WordFault::Symbol {
            symbol: 7,
            seen: 109517,
        },
    );
    text_fault(
        &rt,
        &[b'f'; 80],
        WordFault::Symbol {
            symbol: 0,
            seen: 1048575,
        },
    );
    text_fault(&rt, b"", WordFault::Length { seen: 0 });
    text_fault(&rt, &[b'g'; 79], WordFault::Length { seen: 79 });
    text_fault(&rt, &[b'g'; 81], WordFault::Length { seen: 81 });
}

#[test]
fn words_in_bytes(rt: HostRuntime) -> Result<(), Fail> {
    let mut b = [0; 64];
    b[1] = 1;
    b[14] = 1;
    b[15] = 2;
    let mut due = [0; 16];
    due[0] = 65536;
    due[3] = 258;
    bytes_spell(&rt, &b, &due)?;
    b[37] = 1;
    b[39] = 1;
    b[48] = 255;
    bytes_fault(&rt, &b, 9, 65537);
    b[0] = 1;
    bytes_fault(&rt, &b, 0, 16842752);
    Ok(())
}

#[test]
fn sums_of_words(rt: HostRuntime) -> Result<(), Fail> {
    let greatest = all_equal(65536)?;
    let one = all_equal(1)?;
    is_all(&rt, &greatest.add(&one), 0);
    is_all(&rt, &one.sub(&greatest), 2);
    is_all(&rt, &greatest.sub(&one), 65535);
    is_all(&rt, &Word::sum(&[greatest, greatest, greatest]), 65534);
    is_all(&rt, &Word::sum(&[]), 0);
    Ok(())
}
