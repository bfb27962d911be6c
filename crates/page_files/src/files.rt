// The pages of files.
ghost use Rattle.std.specs.Prelude.{◌≡◌, ◌<◌, ◌/◌, ◌%◌, IfOk};
ghost use Rattle.std.specs.FinMap as map;
ghost use Rattle.machine_names.specs.Orders.{file_page};

use machine_names::{FILE_PAGES, FileNo, MOST_FILES};
use number_map::NumberMap;
use outside::Memory;
use std::alloc::Global;
use std::marker::Model;

// The pages of all files, numbered through.
const ALL_PAGES: usize = MOST_FILES * FILE_PAGES;

/// At most one `K` for each page of each file.
#[derive(Drop)]
pub struct Files<K: Copy> {
    pages: NumberMap<K, ALL_PAGES>,
}

impl<K: Copy> Model for Files<K> {
    ghost use Rattle.std.specs.FinMap as map;
    ghost use Rattle.page_files.specs.Pages.{PagesOf, by_file, page_code};

    ghost Value = { PagesOf K };

    ghost coded = { map.code page_code K.code };

    ghost view = { λ t. by_file t.pages };
}

impl<K: Copy> Files<K> {
    /// No file has a page.
    pub fn boot(alloc: Global) -> Result<Self, Memory>
        ensures { IfOk result (λ files. files ≡ map.empty) }
    {
        Ok(Files {
            pages: NumberMap::boot(alloc)?,
        })
    }

    // The number of a page among those of all files.
    fn number(f: FileNo, page: u16) -> usize
        requires file { f.0 < MOST_FILES }
        requires page { page < FILE_PAGES }
        ensures { (result < ALL_PAGES) × (result / FILE_PAGES ≡ f.0) × (result % FILE_PAGES ≡ page) }
    {
        f.0 as usize * FILE_PAGES + page as usize
    }

    /// What stands at a page of a file. None exactly where the file has no such page.
    pub fn page(&self, f: FileNo, page: u16) -> Option<K>
        requires file { f.0 < MOST_FILES }
        requires page { page < FILE_PAGES }
        ensures { result ≡ map.get self.now (file_page f.0 page) }
    {
        self.pages.get(Self::number(f, page))
    }

    /// Puts a page into a file, and answers the old one.
    pub fn put_page(&mut self, f: FileNo, page: u16, k: K) -> Option<K>
        requires file { f.0 < MOST_FILES }
        requires page { page < FILE_PAGES }
        ensures put { self.new ≡ map.insert self.old (file_page f.0 page) k }
        ensures replaced { result ≡ map.get self.old (file_page f.0 page) }
    {
        self.pages.insert(Self::number(f, page), k)
    }

    /// Takes a page out of a file, and answers it.
    pub fn drop_page(&mut self, f: FileNo, page: u16) -> Option<K>
        requires file { f.0 < MOST_FILES }
        requires page { page < FILE_PAGES }
        ensures gone { self.new ≡ map.remove self.old (file_page f.0 page) }
        ensures dropped { result ≡ map.get self.old (file_page f.0 page) }
    {
        self.pages.remove(Self::number(f, page))
    }
}
