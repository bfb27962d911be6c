// The words of frames as a run begins.
ghost use Rattle.std.specs.Prelude.{◌≡◌, IfOk, replicate};
ghost use Rattle.machine_names.specs.PageWords.{zero_words};

use outside::PAGE_WORDS;
use std::alloc::{AllocError, Global};

// A page of zero words.
fn zero_page() -> [u64; PAGE_WORDS]
    ensures { result ≡ zero_words }
{
    [0; PAGE_WORDS]
}

/// So many pages of zero words.
pub fn zero_pages(alloc: Global, number: u32) -> Result<Vec<[u64; PAGE_WORDS]>, AllocError>
    ensures { IfOk result (λ v. v.items ≡ replicate number zero_words) }
{
    let mut pages = Vec::with_capacity(alloc, number as usize)?;
    for _page in 0..number {
        pages.push(zero_page())?;
    }
    Ok(pages)
}
