//! The bytes of an image.
ghost use Rattle.std.specs.Prelude.{◌≤◌, length};
ghost use Rattle.tr_outside.specs.ImageBytes.{image_bytes};
ghost use Rattle.tr_outside.specs.Whole.{WritesAll};

use crate::traits::Sink;
use crate::whole::{WriteFault, write_all};
use byteorder::{ByteOrder, LittleEndian};
use pm_words::Image;

/// How many words are written at a time: a page of 4,096 bytes.
const PAGE_WORDS: usize = 512;

const PAGE_BYTES: usize = 4096;

/// Writes the words of `image`, each as 8 bytes, the lowest first, a page of 4,096 bytes at a time.
/// Takes no memory.
///
/// After a fault the sink has taken a front of these bytes.
pub fn write_image<D: Sink>(sink: &mut D, image: &Image) -> Result<(), WriteFault>
    ensures written { WritesAll (D.written sink.old) (D.written sink.new)
        (D.faults sink.old) (D.faults sink.new) (image_bytes image.now) result }
{
    let words = image.words();
    let mut at = 0;
    while at < words.len() {
        let end = at + PAGE_WORDS.min(words.len() - at);
        write_page(sink, &words[at..end])?;
        at = end;
    }
    Ok(())
}

// Writes the bytes of at most a page of words.
fn write_page<D: Sink>(sink: &mut D, words: &[u64]) -> Result<(), WriteFault>
    requires { length words.now ≤ 512 }
    ensures written { WritesAll (D.written sink.old) (D.written sink.new)
        (D.faults sink.old) (D.faults sink.new) (image_bytes words.now) result }
{
    let mut page = [0u8; PAGE_BYTES];
    let bytes = &mut page[..8 * words.len()];
    LittleEndian::write_u64_into(words, bytes);
    write_all(sink, bytes)
}

#[cfg(test)]
mod tests {
    use super::*;
    use crate::memory::MemSink;
    use pm_words::NoMemory;

    #[test]
    fn a_word_is_eight_bytes_the_lowest_first(rt: HostRuntime) -> Result<(), NoMemory> {
        let image = Image::new(Vec::from_slice(rt.alloc(), &[0x0102030405060708u64, 255])?);
        let mut sink = MemSink::new(rt.alloc(), 16, Vec::new(rt.alloc()))?;
        assert!(rt; write_image(&mut sink, &image).is_ok());
        let expected = [8, 7, 6, 5, 4, 3, 2, 1, 255, 0, 0, 0, 0, 0, 0, 0];
        assert_eq!(rt; sink.bytes(), expected.as_slice());
        Ok(())
    }

    #[test]
    fn an_image_of_more_than_a_page_is_written_whole(rt: HostRuntime) -> Result<(), NoMemory> {
        let image = Image::new(vec![in rt.alloc(); 9u64; 513]?);
        let mut sink = MemSink::new(rt.alloc(), 4104, Vec::new(rt.alloc()))?;
        assert!(rt; write_image(&mut sink, &image).is_ok());
        assert_eq!(rt; sink.bytes().len(), 4104);
        Ok(())
    }
}
