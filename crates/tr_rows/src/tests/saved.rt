// Every word of the image that the first run saves.
use super::run_text;
use pm_words::NoMemory;
use tr_top::Status;

/// Makes a file and asks for it.
const FIRST_RUN: &str =
    "mkfs 64\nprocess p1 0 0\nthread t1 p1\ndo t1 create /f 666\ndo t1 stat /f\n";

/// Bytes of an image of 64 pages.
const IMAGE_BYTES: usize = 262_144;

/// The root directory's word that leads to its first free entry.
const FIRST_FREE: usize = 159_784;

/// The bucket of `f`, whose name has the hash 0xaf63db4c8601ead9: its low byte is 217.
const BUCKET_OF_F: usize = 163_528;

/// Where the twelve entries of page 40 begin.
const PLACES: [usize; 12] = [
    164_096, 164_416, 164_736, 165_056, 165_376, 165_696, 166_016, 166_336, 166_656, 166_976,
    167_296, 167_616,
];

/// The word at the byte address.
fn word_at(image: &[u8], at: usize) -> Option<u64> {
    match image.get(at..)? {
        [a, b, c, d, e, f, g, h, ..] => {
            Some(u64::from_le_bytes([*a, *b, *c, *d, *e, *f, *g, *h]))
        }
        _ => None,
    }
}

/// The place in page 40 that the word at the address leads to.
fn place_from(image: &[u8], at: usize) -> Option<usize> {
    let word = word_at(image, at)?;
    PLACES.iter().copied().find(|place| *place as u64 == word)
}

/// How many free entries lead one to the next, where the last leads to none. None where one leads elsewhere than into
/// page 40, or where they don't end.
fn free_entries(image: &[u8]) -> Option<usize> {
    let mut at = FIRST_FREE;
    for count in 0..PLACES.len() {
        if word_at(image, at)? == 0 {
            return Some(count);
        }
        at = place_from(image, at)?;
    }
    None
}

/// The words outside page 40 that aren't 0, but for the two of the root directory that lead to its entries.
fn word_outside(at: usize) -> u64 {
    match at {
        // the superblock: `TREASURY`, the version, the pages
        0 => 6_436_300_633_531_568_724,
        8 => 1,
        16 => 64,
        // the journal: no pair is committed, and those that made pages 40 and 41 the root coffer's stand there yet
        4_160 => 16_704,
        4_168 => 1,
        4_176 => 16_712,
        4_184 => 1,
        // the owners: of the kernel's 38 pages, the root coffer's two, the entry page and the page of `f`
        16_384..=16_680 => 65_535,
        16_688..=16_712 => 1,
        // the root coffer: its number, mode 666, its control page and root page, and its path `/` of one byte
        20_480 => 1,
        20_504 => 438,
        20_512 => 38,
        20_520 => 39,
        20_536 => 1,
        20_552 => 47,
        // the bucket of its path
        153_584 => 1,
        // the root directory's first entry page
        159_776 => 163_840,
        // the kind of `f`
        167_936 => 1,
        _ => 0,
    }
}

/// The words of the entry of `f`, by their address from its begin: no further entry, the target, the length and the
/// letter.
fn word_of_entry(at: usize) -> u64 {
    match at {
        8 => 167_936,
        16 => 1,
        24 => 102,
        _ => 0,
    }
}

/// The word that the image has at the address, where the entry of `f` begins at `entry`. None where the word leads to
/// a free entry.
fn expected(at: usize, entry: usize) -> Option<u64> {
    if at == BUCKET_OF_F {
        Some(entry as u64)
    } else if at >= entry && at - entry < 320 {
        Some(word_of_entry(at - entry))
    } else if at == FIRST_FREE || PLACES.contains(&at) {
        None
    } else {
        Some(word_outside(at))
    }
}

#[test]
fn each_word_of_the_first_image_is_as_the_layout_says(rt: HostRuntime) -> Result<(), NoMemory> {
    let ran = run_text(rt.alloc(), FIRST_RUN.as_bytes(), 4096)?;
    assert_eq!(rt; ran.outcome.status, Status::Done);
    let image = ran.saved.bytes();
    assert_eq!(rt; image.len(), IMAGE_BYTES);
    let entry = place_from(image, BUCKET_OF_F).unwrap_or(0);
    assert!(rt; PLACES.contains(&entry), "the bucket leads to {entry}");
    for i in 0..IMAGE_BYTES / 8 {
        let at = 8 * i;
        let word = expected(at, entry);
        assert!(rt; word.is_none() || word == word_at(image, at), "at {at}");
    }
    // with the entry of `f` these are the twelve
    assert_eq!(rt; free_entries(image), Some(11));
    Ok(())
}
