ghost use Rattle.std.specs.Prelude.{◌≡◌, IfOk, map};
ghost use Rattle.nb_closing.specs.Sites.{site_of, site_in};

use nb_runs::Started;
use std::alloc::{AllocError, Global};

/// What others rest on of a variable's start, and whether it pulls.
#[derive(Clone, Copy, Debug, PartialEq, Eq)]
pub struct Site {
    /// The place of its `pending` entry, 0 for an idle variable.
    pub number: u64,
    /// That place, or the place of its last outcome of a second or later pull; 0 for an idle variable.
    pub renewal: u64,
    /// Whether it runs at a second or later pull.
    pub later: bool,
}

/// What stands once an entry is in, before anything closes: each variable's site, by number from 1, whether the notebook is
/// disposed of, and the place of the next entry.
#[derive(Debug, Drop)]
pub struct Moment {
    pub sites: Vec<Site>,
    pub disposed: bool,
    pub place: u64,
}

impl Site {
    /// The site of a start, or of an idle variable.
    pub fn of(start: &Option<Started>) -> Site
        ensures { result ≡ site_of start.now }
    {
        match start {
            None => Site {
                number: 0,
                renewal: 0,
                later: false,
            },
            Some(start) => Site {
                number: start.number(),
                renewal: start.renewal(),
                later: start.is_running() && start.pulls() >= 2,
            },
        }
    }
}

/// The site of each variable, by number. It fails only without memory.
pub fn sites(alloc: Global, starts: &Vec<Option<Started>>) -> Result<Vec<Site>, AllocError>
    ensures { IfOk result (λ all. all.items ≡ map site_of starts.now.items) }
{
    let mut all = Vec::new(alloc);
    for k in 0..starts.len() {
        all.push(Site::of(&starts[k]))?;
    }
    Ok(all)
}

/// A variable's site, and that of an idle variable where there is none.
pub(crate) fn site_at(sites: &Vec<Site>, v: u32) -> Site
    ensures { result ≡ site_in sites.now.items v }
{
    let idle = Site {
        number: 0,
        renewal: 0,
        later: false,
    };
    if v == 0 {
        return idle;
    }
    match sites.get(v as usize - 1) {
        None => idle,
        Some(site) => *site,
    }
}
