//! Images of stations, as those of a permutation.

ghost use Rattle.std.specs.Prelude.{◌≡◌, ℕ, List, IfOk, Ok};
ghost use Rattle.dc_formats.specs.ListFiles.{AreImages, images_text};
ghost use Rattle.dc_field.specs.Answers.{Answers};
ghost use Rattle.dc_graph.specs.Images.{perm_from_bytes};

use dc_field::{Items, ListFault, ListKind, MOST_STATIONS, Refusal, read_decimal};
use dc_text::{ListItem, read_list};
use std::alloc::Global;

/// The image of each station, from station 0 on: a number from 0 to 255. They need not be a
/// permutation.
pub type Perm = Items<u16>;

/// Reads a line with the number of an image.
struct Image;

impl ListItem for Image {
    ghost use Rattle.std.specs.Prelude.{◌<◌};
    ghost use Rattle.std.specs.Fmt.{decimal};
    ghost use Rattle.dc_graph.specs.Images.{image_in};
    ghost use Rattle.dc_graph.specs.ImageTexts.{image_texts};

    type Item = u16;

    ghost item = { image_in };

    ghost IsItem = { λ i. i < 256 };

    ghost text_of = { decimal };

    ghost has_texts = { image_texts };

    fn read(text: &[u8]) -> Option<u16> {
        match read_decimal(text) {
            Some(image) if image < 256 => Some(image as u16),
            _ => None,
        }
    }
}

/// The images that the bytes of a permutation file spell, or the first fault.
///
/// The file is this project's own format: line `i + 1` is the image of station `i`, in decimal
/// without leading zeros. Bytes that do not spell images are refused with the first faulty line,
/// from 1: it is not text, it is the 257th, or it is not a number from 0 to 255.
#[tactic(auto, unfolding(crate::specs::Images::perm_from_bytes))]
pub fn read_perm(alloc: Global, b: &[u8]) -> Result<Perm, Refusal<ListFault>>
    // The images, or the fault of the first line that has one, by the order of the tests.
    ensures exact { Answers result (perm_from_bytes b.now) }
    // The images that are read are within the limits, and the bytes are their text.
    ensures found { IfOk result (λ images. AreImages images × (b.now ≡ images_text images)) }
    // The text of images within the limits is read as these images.
    ensures only { (images : List ℕ) → AreImages images → b.now ≡ images_text images →
        Answers result (Ok images) }
{
    read_list::<Image>(alloc, b, usize::from(MOST_STATIONS), ListKind::Number)
}
