ghost use Rattle.std.specs.Prelude.{length, Some};
ghost use Rattle.pm_words.specs.Memory.{HasPages};

use super::*;
use crate::image::write_image;
use crate::memory::{MemSink, MemSource};
use crate::traits::Failed;
use pm_words::Words;
use std::marker::Model;

// How many words the least image has.
const LEAST_WORDS: u64 = 32_768;

// A source that gives at most so many bytes at a time, and at least one.
#[derive(Drop)]
struct Pieces {
    whole: MemSource,
    most: usize,
}

impl Model for Pieces {
    ghost use Rattle.tr_outside.specs.Memory.{SourceState};

    ghost Value = { SourceState };

    ghost view = { λ s. s.whole };
}

impl Source for Pieces {
    ghost left = { λ s. Some s.left };

    ghost faults = { λ s. s.faults };

    fn read(&mut self, into: &mut [u8]) -> Result<usize, Failed> {
        let size = self.most.max(1).min(into.len());
        self.whole.read(&mut into[..size])
    }
}

// The bytes of the words 1, 2 and so on, as many as the least image has.
fn counted_up(alloc: Global) -> Result<Vec<u8>, AllocError> {
    let mut bytes = Vec::new(alloc);
    for word in 1..=LEAST_WORDS {
        bytes.extend_from_slice(&word.to_le_bytes())?;
    }
    Ok(bytes)
}

// What is read of so many bytes that are 0, of which a call gives at most so many, and chosen calls fail.
fn outcome_of(
    alloc: Global,
    len: usize,
    most: usize,
    fails: &[u32],
) -> Result<Result<Image, ImageFault>, AllocError> {
    let bytes = vec![in alloc; 0u8; len]?;
    let whole = MemSource::new(bytes, Vec::from_slice(alloc, fails)?);
    let mut source = Pieces { whole, most };
    Ok(read_image(alloc, &mut source))
}

// Whether an image of the least size is written as these bytes.
fn is_written_as(alloc: Global, image: &Image, bytes: &[u8]) -> Result<bool, AllocError> {
    let mut sink = MemSink::new(alloc, 262_144, Vec::new(alloc))?;
    Ok(write_image(&mut sink, image).is_ok() && sink.bytes() == bytes)
}

// The word at address 8 of a memory that is made of an image.
fn second_word(alloc: Global, image: Image) -> Result<u64, AllocError>
    requires { HasPages (length image) }
{
    Ok(Words::of_image(alloc, image)?.load(8))
}

#[test]
fn an_image_is_read_and_written_with_the_same_bytes(rt: HostRuntime) -> Result<(), AllocError> {
    let bytes = counted_up(rt.alloc())?;
    let mut source = MemSource::new(bytes.clone()?, Vec::new(rt.alloc()));
    match read_image(rt.alloc(), &mut source) {
        Ok(image) => {
            assert_eq!(rt; image.words().len(), 32_768);
            assert!(rt; is_written_as(rt.alloc(), &image, &bytes)?);
            assert_eq!(rt; second_word(rt.alloc(), image)?, 2);
        }
        Err(_) => assert!(rt; false),
    }
    Ok(())
}

#[test]
fn the_number_of_bytes_decides(rt: HostRuntime) -> Result<(), AllocError> {
    let refused = [
        (0, ImageFault::TooShort(0)),
        (262_143, ImageFault::TooShort(262_143)),
        (262_145, ImageFault::NotWhole(262_145)),
        (67_108_870, ImageFault::TooLong(67_108_865)),
    ];
    for (len, fault) in refused {
        let outcome = outcome_of(rt.alloc(), len, usize::MAX, &[])?;
        assert!(rt;
            matches!(outcome, Err(found) if found == fault),
            "{len} bytes"
        );
    }
    Ok(())
}

#[test]
fn the_size_of_pieces_doesnt_tell(rt: HostRuntime) -> Result<(), AllocError> {
    for most in [1, 511, 65_536, 65_537] {
        let words = match outcome_of(rt.alloc(), 262_144, most, &[])? {
            Ok(image) => image.words().len(),
            Err(_fault) => 0,
        };
        assert_eq!(rt; words, 32_768, "at most {most} bytes at a time");
    }
    Ok(())
}

#[test]
fn a_call_that_fails_comes_first(rt: HostRuntime) -> Result<(), AllocError> {
    let cases = [(0, 1), (262_143, 4), (262_144, 5), (262_145, 5)];
    for (len, fails) in cases {
        let outcome = outcome_of(rt.alloc(), len, usize::MAX, &[fails])?;
        assert!(rt;
            matches!(outcome, Err(ImageFault::ReadFault)),
            "{len} bytes"
        );
    }
    Ok(())
}
