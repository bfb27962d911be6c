// The home of the page of a place.
ghost use Rattle.std.specs.Prelude.{◌≡◌};

use page_homes::Home;

/// What is found at the end of the way to a page.
#[derive(Clone, Copy)]
pub enum PageHome {
    /// The page is that of this home, in a frame or not.
    At(Home),
    /// This home, of a map on the way, is in no frame.
    MapAway(Home),
    /// No page is named there.
    NoPage,
}

impl PageHome {
    ghost use Rattle.paged_tables.specs.PageHomes.{homed};

    /// That of an entry or of a file, which names a page or none.
    pub fn of(home: Option<Home>) -> PageHome
        ensures { result ≡ homed home }
    {
        match home {
            Some(home) => PageHome::At(home),
            None => PageHome::NoPage,
        }
    }
}
