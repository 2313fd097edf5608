//! An image from its bytes.
ghost use Rattle.std.specs.Prelude.{◌≡◌, ◌≢◌, ◌≤◌, ◌/◌, ◌%◌, length, IfOk, IfSome, IfNone, Err};
ghost use Rattle.tr_outside.specs.declared.image_fault.ImageFault.TheVariants as fault;
ghost use Rattle.pm_words.specs.Memory.{HasPages};
ghost use Rattle.tr_outside.specs.Causes.{Rose};
ghost use Rattle.tr_outside.specs.Whole.{ConsumesAtMost};
ghost use Rattle.tr_outside.specs.ImageRead.{IsLength, IsFaultOf, AnswersBytes, AnswersImage, image_words};

use crate::image_fault::ImageFault;
use crate::traits::Source;
use crate::whole::{ReadError, read_up_to};
use byteorder::{ByteOrder, LittleEndian};
use pm_words::Image;
use std::alloc::{AllocError, Global};

const LEAST_BYTES: usize = 262_144;

const MOST_BYTES: usize = 67_108_864;

const PAGE_BYTES: usize = 4096;

const WORD_BYTES: usize = 8;

/// Reads an image, each word from 8 bytes, the lowest first: all that the source has left, or one
/// byte more than the largest image has. The image has 64 to 16,384 whole pages of 512 words.
pub fn read_image<S: Source>(alloc: Global, source: &mut S) -> Result<Image, ImageFault>
    ensures answer { AnswersImage (S.left source.old) (S.left source.new) result }
    ensures size { IfOk result (λ image. HasPages (length image)) }
    ensures taken { ConsumesAtMost 67108865 (S.left source.old) (S.left source.new) }
    ensures fault { result ≡ Err fault.ReadFault → Rose (S.faults source.old) (S.faults source.new) }
    ensures later { S.faults source.old ≤ S.faults source.new }
{
    match read_up_to(alloc, source, MOST_BYTES + 1) {
        Ok(bytes) => image_of(alloc, &bytes),
        Err(ReadError::Fault) => Err(ImageFault::ReadFault),
        Err(ReadError::NoMemory) => Err(ImageFault::NoMemory),
    }
}

// The image of these bytes.
fn image_of(alloc: Global, bytes: &[u8]) -> Result<Image, ImageFault>
    ensures answer { AnswersBytes bytes.now result }
{
    match fault_of(bytes.len()) {
        Some(fault) => Err(fault),
        None => match words_of(alloc, bytes) {
            Ok(words) => Ok(Image::new(words)),
            Err(_) => Err(ImageFault::NoMemory),
        },
    }
}

// Why an image has no such number of bytes.
fn fault_of(len: usize) -> Option<ImageFault>
    ensures some { IfSome result (IsFaultOf len) }
    ensures none { IfNone result (IsLength len) }
{
    if len < LEAST_BYTES {
        Some(ImageFault::TooShort(len as u64))
    } else if len > MOST_BYTES {
        Some(ImageFault::TooLong(len as u64))
    } else if !len.is_multiple_of(PAGE_BYTES) {
        Some(ImageFault::NotWhole(len as u64))
    } else {
        None
    }
}

// The words of these bytes.
fn words_of(alloc: Global, bytes: &[u8]) -> Result<Vec<u64>, AllocError>
    requires { length bytes.now % 8 ≡ 0 }
    ensures words { IfOk result (λ words. words.items ≡ image_words bytes.now) }
{
    let mut words = vec![in alloc; 0u64; bytes.len() / WORD_BYTES]?;
    LittleEndian::read_u64_into(bytes, &mut words);
    Ok(words)
}

#[cfg(test)]
mod tests;
