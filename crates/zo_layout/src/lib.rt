//! Where the fields of an image stand. Addresses are in bytes; `pages` is the number of pages of the image.
#![tactic(auto)]

ghost use Rattle.std.specs.Prelude.{◌≡◌, ◌+◌, ◌*◌, ◌<◌, ◌≤◌, ◌^◌, length};
ghost use Rattle.zo_layout.specs.Layout as spec;

/// Bytes of a page.
pub const PAGE_BYTES: u64 = 4096;

/// Words of a page.
pub const PAGE_WORDS: u64 = 512;

/// Bytes of a word.
pub const WORD_BYTES: u64 = 8;

/// Places for entries in an entry page.
pub const ENTRIES_OF_PAGE: u64 = 12;

/// The first word of a file page.
pub const KIND_FILE: u64 = 1;

/// Words are loaded only at addresses below this one, past the end of every image, so that no sum of
/// addresses wraps.
pub const FAR: u64 = 1 << 60;

/// The address of a page.
pub fn page_at(page: u32) -> u64
    ensures { result ≡ spec.page_at page }
{
    PAGE_BYTES * u64::from(page)
}

/// The address of word `i` of what begins at `start`.
pub fn word_of(start: u64, i: u64) -> u64
    requires start_near { start < 2 ^ 61 }
    requires i_near { i < 2 ^ 41 }
    ensures { result ≡ spec.word_of start i }
{
    start + WORD_BYTES * i
}

/// Pages of the journal.
pub fn journal_pages(pages: u32) -> u32
    requires { pages ≤ 16384 }
    ensures { result ≡ spec.journal_pages pages }
{
    (8 + 2 * (pages + 512)).div_ceil(512)
}

/// Pages of the owner table.
pub fn owner_pages(pages: u32) -> u32
    requires { pages ≤ 16384 }
    ensures { result ≡ spec.owner_pages pages }
{
    pages.div_ceil(512)
}

/// How many pages are the kernel's: the first ones.
pub fn kernel_pages(pages: u32) -> u32
    requires { pages ≤ 16384 }
    ensures { result ≡ spec.kernel_pages pages }
{
    34 + journal_pages(pages) + owner_pages(pages)
}

/// The first page of the owner table.
pub fn owner_table(pages: u32) -> u32
    requires { pages ≤ 16384 }
    ensures { result ≡ spec.owner_table pages }
{
    1 + journal_pages(pages)
}

/// The address of the word that says whose a page is.
pub fn owner_word(pages: u32, page: u32) -> u64
    requires size { pages ≤ 16384 }
    requires inside { page < pages }
    ensures { result ≡ spec.owner_word pages page }
{
    word_of(page_at(owner_table(pages)), u64::from(page))
}

/// The first page of the coffer table.
pub fn coffer_table(pages: u32) -> u32
    requires { pages ≤ 16384 }
    ensures { result ≡ spec.coffer_table pages }
{
    owner_table(pages) + owner_pages(pages)
}

/// The page of path buckets.
pub fn bucket_page(pages: u32) -> u32
    requires { pages ≤ 16384 }
    ensures { result ≡ spec.bucket_page pages }
{
    coffer_table(pages) + 32
}

/// The control page of the root coffer in a new image.
pub fn root_control(pages: u32) -> u32
    requires { pages ≤ 16384 }
    ensures { result ≡ spec.root_control pages }
{
    kernel_pages(pages)
}

/// The root page of the root coffer in a new image.
pub fn root_page(pages: u32) -> u32
    requires { pages ≤ 16384 }
    ensures { result ≡ spec.root_page pages }
{
    kernel_pages(pages) + 1
}

/// The word of the superblock that has the bytes `TREASURY`.
pub fn signature_word() -> u64
    ensures { result ≡ spec.signature_word }
{
    page_at(0)
}

/// The word of the superblock that has the version.
pub fn version_word() -> u64
    ensures { result ≡ spec.version_word }
{
    word_of(page_at(0), 1)
}

/// The word of the superblock that has the number of pages.
pub fn count_word() -> u64
    ensures { result ≡ spec.count_word }
{
    word_of(page_at(0), 2)
}

/// The word of the journal that has the number of committed pairs.
pub fn committed_word() -> u64
    ensures { result ≡ spec.committed_word }
{
    page_at(1)
}

/// The word of the journal that has the address of pair `i`.
pub fn pair_address(i: u32) -> u64
    ensures { result ≡ spec.pair_address i }
{
    word_of(committed_word(), 8 + 2 * u64::from(i))
}

/// The word of the journal that has the word of pair `i`.
pub fn pair_value(i: u32) -> u64
    ensures { result ≡ spec.pair_value i }
{
    word_of(committed_word(), 8 + 2 * u64::from(i) + 1)
}

/// How many pairs the journal has room for.
pub fn pair_capacity(pages: u32) -> u32
    requires { pages ≤ 16384 }
    ensures { result ≡ spec.pair_capacity pages }
{
    256 * journal_pages(pages) - 4
}

/// The entry of a coffer in the coffer table.
pub fn coffer_entry(pages: u32, id: u16) -> u64
    requires size { pages ≤ 16384 }
    requires id { 1 ≤ id }
    ensures { result ≡ spec.coffer_entry pages id }
{
    word_of(page_at(coffer_table(pages)), 64 * (u64::from(id) - 1))
}

/// The word of a coffer's entry that has its state: 0 none, 1 standing, 2 quarantined.
pub fn coffer_state(entry: u64) -> u64
    ensures { result ≡ spec.coffer_state entry }
{
    entry
}

/// The word of a coffer's entry that has its uid.
pub fn coffer_uid(entry: u64) -> u64
    requires { entry < 2 ^ 60 }
    ensures { result ≡ spec.coffer_uid entry }
{
    word_of(entry, 1)
}

/// The word of a coffer's entry that has its gid.
pub fn coffer_gid(entry: u64) -> u64
    requires { entry < 2 ^ 60 }
    ensures { result ≡ spec.coffer_gid entry }
{
    word_of(entry, 2)
}

/// The word of a coffer's entry that has its mode.
pub fn coffer_mode(entry: u64) -> u64
    requires { entry < 2 ^ 60 }
    ensures { result ≡ spec.coffer_mode entry }
{
    word_of(entry, 3)
}

/// The word of a coffer's entry that has its control page, by its number.
pub fn coffer_control(entry: u64) -> u64
    requires { entry < 2 ^ 60 }
    ensures { result ≡ spec.coffer_control entry }
{
    word_of(entry, 4)
}

/// The word of a coffer's entry that has its root page, by its number.
pub fn coffer_root(entry: u64) -> u64
    requires { entry < 2 ^ 60 }
    ensures { result ≡ spec.coffer_root entry }
{
    word_of(entry, 5)
}

/// The word of a coffer's entry that has its next coffer in its path bucket.
pub fn coffer_next(entry: u64) -> u64
    requires { entry < 2 ^ 60 }
    ensures { result ≡ spec.coffer_next entry }
{
    word_of(entry, 6)
}

/// The word of a coffer's entry that has its path's length in bytes.
pub fn coffer_path_length(entry: u64) -> u64
    requires { entry < 2 ^ 60 }
    ensures { result ≡ spec.coffer_path_length entry }
{
    word_of(entry, 7)
}

/// The word of a coffer's entry that has its kind.
pub fn coffer_kind(entry: u64) -> u64
    requires { entry < 2 ^ 60 }
    ensures { result ≡ spec.coffer_kind entry }
{
    word_of(entry, 8)
}

/// Word `i` of the path of a coffer, in its entry: eight bytes of it, the first ones lowest.
pub fn coffer_path_word(entry: u64, i: u32) -> u64
    requires { entry < 2 ^ 60 }
    ensures { result ≡ spec.coffer_path_word entry i }
{
    word_of(entry, 9 + u64::from(i))
}

/// The word that has the first coffer of a path bucket.
pub fn path_bucket(pages: u32, bucket: u8) -> u64
    requires { pages ≤ 16384 }
    ensures { result ≡ spec.path_bucket pages bucket }
{
    word_of(page_at(bucket_page(pages)), u64::from(bucket))
}

/// The word of a control page that has the coffer's lease.
pub fn control_lease(control: u64) -> u64
    ensures { result ≡ spec.control_lease control }
{
    control
}

/// The word of a control page that has the coffer's note of its holder: the address of a commit word.
pub fn control_at(control: u64) -> u64
    requires { control < 2 ^ 60 }
    ensures { result ≡ spec.control_at control }
{
    word_of(control, 1)
}

/// The word of a control page that has the coffer's counter.
pub fn control_counter(control: u64) -> u64
    requires { control < 2 ^ 60 }
    ensures { result ≡ spec.control_counter control }
{
    word_of(control, 2)
}

/// The word of a control page that has the coffer's intent page's address, or 0.
pub fn control_intent(control: u64) -> u64
    requires { control < 2 ^ 60 }
    ensures { result ≡ spec.control_intent control }
{
    word_of(control, 3)
}

/// The word of a control page that has the lease of a pool.
pub fn pool_lease(control: u64, pool: u8) -> u64
    requires { control < 2 ^ 60 }
    ensures { result ≡ spec.pool_lease control pool }
{
    word_of(control, 8 * (u64::from(pool) + 1))
}

/// The word of a control page that has the address of the first free page of a pool.
pub fn pool_head(control: u64, pool: u8) -> u64
    requires { control < 2 ^ 60 }
    ensures { result ≡ spec.pool_head control pool }
{
    word_of(control, 8 * (u64::from(pool) + 1) + 1)
}

/// The word of a free page that has the address of the next one of its pool.
pub fn next_free_page(page: u64) -> u64
    ensures { result ≡ spec.next_free_page page }
{
    page
}

/// The word of a directory or file page that has its kind.
pub fn page_kind(page: u64) -> u64
    ensures { result ≡ spec.page_kind page }
{
    page
}

/// The word of a directory page that has the directory's lease.
pub fn dir_lease(dir: u64) -> u64
    requires { dir < 2 ^ 60 }
    ensures { result ≡ spec.dir_lease dir }
{
    word_of(dir, 1)
}

/// The word of a directory page that has the directory's note of its holder: the address of a commit word.
pub fn dir_at(dir: u64) -> u64
    requires { dir < 2 ^ 60 }
    ensures { result ≡ spec.dir_at dir }
{
    word_of(dir, 2)
}

/// The word of a directory page that has the directory's counter.
pub fn dir_counter(dir: u64) -> u64
    requires { dir < 2 ^ 60 }
    ensures { result ≡ spec.dir_counter dir }
{
    word_of(dir, 3)
}

/// The word of a directory page that has the address of its first entry page.
pub fn first_entry_page(dir: u64) -> u64
    requires { dir < 2 ^ 60 }
    ensures { result ≡ spec.first_entry_page dir }
{
    word_of(dir, 4)
}

/// The word of a directory page that has the address of its first free entry.
pub fn first_free_entry(dir: u64) -> u64
    requires { dir < 2 ^ 60 }
    ensures { result ≡ spec.first_free_entry dir }
{
    word_of(dir, 5)
}

/// The word of a directory page that has the address of a bucket's first entry.
pub fn bucket_head(dir: u64, bucket: u8) -> u64
    requires { dir < 2 ^ 60 }
    ensures { result ≡ spec.bucket_head dir bucket }
{
    word_of(dir, 256 + u64::from(bucket))
}

/// The word of an entry page that has the address of the next one of its directory.
pub fn next_entry_page(page: u64) -> u64
    ensures { result ≡ spec.next_entry_page page }
{
    page
}

/// The address of entry `i` of an entry page.
pub fn entry_place(page: u64, i: u64) -> u64
    requires near { page < 2 ^ 60 }
    requires place { i < 12 }
    ensures { result ≡ spec.entry_place page i }
{
    word_of(page, 32 + 40 * i)
}

/// The word of an entry that has the next one's address, or 0.
pub fn next_entry(entry: u64) -> u64
    ensures { result ≡ spec.next_entry entry }
{
    entry
}

/// The word of an entry that has its target: the address of a file or directory page, or 1.
pub fn entry_target(entry: u64) -> u64
    requires { entry < 2 ^ 60 }
    ensures { result ≡ spec.entry_target entry }
{
    word_of(entry, 1)
}

/// The word of an entry that has the length of its name.
pub fn name_length(entry: u64) -> u64
    requires { entry < 2 ^ 60 }
    ensures { result ≡ spec.name_length entry }
{
    word_of(entry, 2)
}

/// Word `i` of the name of an entry: eight bytes of it, the first ones lowest.
pub fn name_word(entry: u64, i: u32) -> u64
    requires { entry < 2 ^ 60 }
    ensures { result ≡ spec.name_word entry i }
{
    word_of(entry, 3 + u64::from(i))
}

/// The word of a file page that has the address of its map page, 0 for an empty file.
pub fn file_map(file: u64) -> u64
    requires { file < 2 ^ 60 }
    ensures { result ≡ spec.file_map file }
{
    word_of(file, 1)
}

/// The word of a map page that has the file's size in bytes.
pub fn map_size(map: u64) -> u64
    ensures { result ≡ spec.map_size map }
{
    map
}

/// The word of a map page that has the address of a block, 0 for zeros.
pub fn map_block(map: u64, block: u32) -> u64
    requires { map < 2 ^ 60 }
    ensures { result ≡ spec.map_block map block }
{
    word_of(map, 1 + u64::from(block))
}

/// The word of an intent page that has the number of pairs.
pub fn intent_count(intent: u64) -> u64
    ensures { result ≡ spec.intent_count intent }
{
    intent
}

/// The word of an intent page that has the address of pair `i`.
pub fn intent_address(intent: u64, i: u8) -> u64
    requires { intent < 2 ^ 60 }
    ensures { result ≡ spec.intent_address intent i }
{
    word_of(intent, 2 + 2 * u64::from(i))
}

/// The word of an intent page that has the word of pair `i`.
pub fn intent_word(intent: u64, i: u8) -> u64
    requires { intent < 2 ^ 60 }
    ensures { result ≡ spec.intent_word intent i }
{
    word_of(intent, 2 + 2 * u64::from(i) + 1)
}

/// The hash of a name or path: FNV-1a of 64 bits.
pub fn name_hash(name: &[u8]) -> u64
    ensures { result ≡ spec.name_hash name.now }
{
    let mut hash: u64 = 14695981039346656037;
    for &byte in name {
        hash = (hash ^ u64::from(byte)).wrapping_mul(1099511628211);
    }
    hash
}

/// The bucket of a name in its directory.
pub fn bucket_of(name: &[u8]) -> u8
    ensures { result ≡ spec.bucket_of name.now }
{
    (name_hash(name) & 0xff) as u8
}

#[cfg(test)]
mod tests {
    use super::*;

    #[test]
    fn kernel_pages_of_the_sizes(rt: HostRuntime) {
        for (pages, first) in [(64, 38), (256, 39), (1024, 43), (4096, 61), (16384, 133)] {
            assert_eq!(rt; kernel_pages(pages), first, "of {pages} pages");
        }
    }

    #[test]
    fn names_lie_in_their_buckets(rt: HostRuntime) {
        assert_eq!(rt; name_hash(b"a"), 0xaf63dc4c8601ec8c);
        for (name, bucket) in [(b"aa", 183u8), (b"bH", 183), (b"e-", 183)] {
            assert_eq!(rt; bucket_of(name), bucket);
        }
        assert_eq!(rt; bucket_of(b"/"), 254);
    }

    #[test]
    fn fields_of_the_root_directory(rt: HostRuntime) {
        let dir = page_at(root_page(64));
        assert_eq!(rt; dir, 159744);
        assert_eq!(rt; first_entry_page(dir), 159776);
        assert_eq!(rt; bucket_head(dir, 140), 162912);
        assert_eq!(rt; pool_head(page_at(root_control(64)), 0), 155720);
        assert_eq!(rt; owner_word(64, 40), 16704);
    }

    #[test]
    fn fields_of_the_kernels_pages(rt: HostRuntime) {
        assert_eq!(rt;
            (signature_word(), version_word(), count_word()),
            (0, 8, 16)
        );
        assert_eq!(rt;
            (
                committed_word(),
                pair_address(0),
                pair_value(0),
                pair_address(255)
            ),
            (4096, 4160, 4168, 8240)
        );
        assert_eq!(rt; pair_capacity(64), 764);
        assert_eq!(rt; (coffer_entry(64, 1), coffer_entry(64, 2)), (20480, 20992));
        assert_eq!(rt; coffer_path_word(coffer_entry(64, 1), 0), 20552);
        assert_eq!(rt; path_bucket(64, 254), 153584);
    }

    #[test]
    fn fields_of_a_coffers_pages(rt: HostRuntime) {
        let control = page_at(root_control(64));
        assert_eq!(rt;
            (
                control_lease(control),
                control_at(control),
                control_counter(control),
                control_intent(control)
            ),
            (155648, 155656, 155664, 155672)
        );
        assert_eq!(rt;
            (pool_lease(control, 0), pool_head(control, 7)),
            (155712, 156168)
        );
        let dir = page_at(root_page(64));
        assert_eq!(rt;
            (
                page_kind(dir),
                dir_lease(dir),
                dir_at(dir),
                dir_counter(dir)
            ),
            (159744, 159752, 159760, 159768)
        );
        assert_eq!(rt;
            (
                map_size(163840),
                map_block(163840, 0),
                map_block(163840, 509)
            ),
            (163840, 163848, 167920)
        );
        assert_eq!(rt;
            (
                intent_count(163840),
                intent_address(163840, 0),
                intent_word(163840, 7)
            ),
            (163840, 163856, 163976)
        );
    }
}
