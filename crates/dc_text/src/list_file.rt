//! Files that are one list, one item a line.

ghost use Rattle.std.specs.Prelude.{◌≡◌, List, IfOk, Ok};
ghost use Rattle.dc_field.specs.Answers.{Answers};
ghost use Rattle.dc_text.specs.ListFiles.{AreListed, list_fault, list_from_bytes, list_text};

use crate::lines::Lines;
use dc_field::{Items, ListFault, ListKind, Refusal};
use std::alloc::Global;

/// What a line of such a file is read as: the item that `item` finds in its text. Each item has
/// one text, `text_of`, and is read of no other.
pub trait ListItem {
    ghost use Rattle.std.specs.Prelude.{◌≡◌, ℕ, List, Option};
    ghost use Rattle.dc_text.specs.ListFiles.{HasTexts};

    type Item: Drop;

    ghost item: { List ℕ → Option Self.Item };

    ghost IsItem: { Self.Item → Type 0 };

    ghost text_of: { Self.Item → List ℕ };

    /// The item of a line, which comes without its end. None where it is no item.
    fn read(text: &[u8]) -> Option<Self::Item>
        ensures { result ≡ item text.now };

    ghost has_texts: { HasTexts item IsItem text_of };
}

/// The items of a file, one a line and at most `most`, or the first fault.
///
/// The first faulty line is refused with its number. It is not text, or there is one line too many,
/// or, of the kind `bad`, it is no item, tested in this order. Memory is taken as lines are read.
pub fn read_list<F: ListItem>(
    alloc: Global,
    bytes: &[u8],
    most: usize,
    bad: ListKind,
) -> Result<Items<F::Item>, Refusal<ListFault>>
    // The items, or the fault of the first line that has one.
    ensures exact { Answers result (list_from_bytes F.item bad most bytes.now) }
    // What is read are items, no more than there may be, and the bytes are the lines of their texts.
    ensures found { IfOk result (λ xs. AreListed F.IsItem most xs
        × (bytes.now ≡ list_text F.text_of xs)) }
    // The lines of the texts of items, no more than there may be, are read as these items.
    ensures only { (xs : List F.Item) → AreListed F.IsItem most xs
        → bytes.now ≡ list_text F.text_of xs → Answers result (Ok xs) }
{
    read_items::<F>(alloc, bytes, most, bad)
}

/// Reads one line after another.
fn read_items<F: ListItem>(
    alloc: Global,
    bytes: &[u8],
    most: usize,
    bad: ListKind,
) -> Result<Items<F::Item>, Refusal<ListFault>>
    ensures { Answers result (list_from_bytes F.item bad most bytes.now) }
{
    let mut items = Vec::new(alloc);
    let mut lines = Lines::new(bytes);
    while !lines.at_end() {
        let number = lines.number();
        let text = match lines.next() {
            Some(text) => text,
            None => return Err(refusal(number, ListKind::NotText)),
        };
        if most <= items.len() {
            return Err(refusal(number, ListKind::TooMany));
        }
        match F::read(text) {
            Some(item) => items.push(item)?,
            None => return Err(refusal(number, bad)),
        }
    }
    Ok(Items::from_vec(items))
}

/// The refusal of a line.
fn refusal(line: u32, kind: ListKind) -> Refusal<ListFault>
    ensures { result ≡ Refusal.Bad (list_fault line kind) }
{
    Refusal::Bad(ListFault { line, kind })
}
