// A component's lists of named lines, each line at its place: Si_location and Timing_location; R_pkg, L_pkg and C_pkg.
ghost use Rattle.std.specs.Prelude.{◌≡◌};
ghost use Rattle.cut_lines.specs.Cursors.{rest, Placed};
ghost use Rattle.rules.specs.Reading.{under};
ghost use Rattle.lines_under.specs.Under.{StopsAt};
ghost use Rattle.component_records.specs.Views.{box_line, box_at, boxes_in, site_line, site_at, sites_in, no_sites};

use cut_lines::Cursor;
use records::{Location, Triple};

// What stands under [Package].
#[derive(Clone, Copy)]
pub struct Boxes {
    pub resistance: Triple,
    pub inductance: Triple,
    pub capacitance: Triple,
}

// What stands under [Component].
#[derive(Clone, Copy)]
pub struct Sites {
    pub si: Location,
    pub timing: Location,
}

impl Boxes {
    // The cells at place n; there are three places.
    fn at(self, n: usize, cells: Triple) -> Boxes
        ensures { result ≡ box_at self n cells }
    {
        let mut boxes = self;
        match n {
            0 => {
                boxes.resistance = cells;
            }
            1 => {
                boxes.inductance = cells;
            }
            2 => {
                boxes.capacitance = cells;
            }
            _ => {}
        }
        boxes
    }

    fn with_line(self, w: &[u8]) -> Boxes
        ensures { result ≡ box_line self w.now }
    {
        let Some(n) = named_lines::package_line(w) else {
            return self;
        };
        let Ok(cells) = line_faults::cells_line(w) else {
            return self;
        };
        self.at(n, cells)
    }

    // With the lines under [Package], and where the next keyword line stands.
    pub(crate) fn under(self, src: &[u8], c: Cursor) -> (Boxes, Cursor)
        requires { Placed src.now c }
        ensures boxes { result.0 ≡ boxes_in self (under (rest src.now c)) }
        ensures stops { StopsAt src.now c result.1 }
    {
        lines_under::fold_lines(src, c, self, |boxes, w| boxes.with_line(w))
    }
}

impl Sites {
    // The location at place n; there are two places.
    fn at(self, n: usize, location: Location) -> Sites
        ensures { result ≡ site_at self n location }
    {
        let mut sites = self;
        match n {
            0 => {
                sites.si = location;
            }
            1 => {
                sites.timing = location;
            }
            _ => {}
        }
        sites
    }

    fn with_line(self, w: &[u8]) -> Sites
        ensures { result ≡ site_line self w.now }
    {
        let Some(n) = named_lines::component_line(w) else {
            return self;
        };
        let Ok(location) = named_lines::location_of(w) else {
            return self;
        };
        self.at(n, location)
    }

    // The lines under [Component], and where the next keyword line stands.
    pub(crate) fn under(src: &[u8], c: Cursor) -> (Sites, Cursor)
        requires { Placed src.now c }
        ensures sites { result.0 ≡ sites_in no_sites (under (rest src.now c)) }
        ensures stops { StopsAt src.now c result.1 }
    {
        let none = Sites {
            si: Location::AtPin,
            timing: Location::AtPin,
        };
        lines_under::fold_lines(src, c, none, |sites, w| sites.with_line(w))
    }
}
