// Addresses that a call follows.
ghost use Rattle.std.specs.Prelude.{◌≡◌, ◌↔◌, ◌<◌, ◌≤◌, ◌^◌, MatchOption};
ghost use Rattle.zo_layout.specs.Layout.{page_at};

use zo_layout::{FAR, page_at};

/// The address of an entry, a page or a word: not 0, and so low that sums of addresses don't wrap.
#[derive(Clone, Copy, Debug, PartialEq, Eq)]
pub struct Addr {
    pub at: u64,
    ghost some: { 0 < at },
    ghost near: { at < 2 ^ 60 },
}

impl Addr {
    /// The address of a page, none for page 0.
    pub fn of_page(page: u32) -> Option<Addr>
        ensures { MatchOption result (page ≡ 0) (λ addr. addr.at ≡ page_at page) }
    {
        if page == 0 {
            None
        } else {
            Some(Addr { at: page_at(page) })
        }
    }
}

/// Where a word of the image leads, if it is an address of the image or 0.
#[derive(Clone, Copy, Debug, PartialEq, Eq)]
pub enum Link {
    End,
    To(Addr),
    /// To no place of any image.
    Astray,
}

impl Link {
    pub fn of(word: u64) -> Link
        ensures end { (result ≡ Link.End) ↔ (word ≡ 0) }
        ensures to { (entry : _) → result ≡ Link.To entry → entry.at ≡ word }
        ensures astray { (result ≡ Link.Astray) ↔ (2 ^ 60 ≤ word) }
    {
        if word == 0 {
            Link::End
        } else if word < FAR {
            Link::To(Addr { at: word })
        } else {
            Link::Astray
        }
    }
}
