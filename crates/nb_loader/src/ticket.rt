ghost use Rattle.std.specs.Prelude.{◌≡◌, Some, IfSome, option_map};
ghost use Rattle.std.specs.Str.{bytes_eq};
ghost use Rattle.nb_history.specs.History.{standing};
ghost use Rattle.nb_history.specs.Loaders.{keys_of, argv_of as argv_of_key, argv_for};
ghost use Rattle.nb_history.specs.Serial.{loader_ticket as least_ticket};
ghost use Rattle.nb_loader.specs.Loads.{as_loaders, FindsNext};

use nb_core::Core;
use nb_doc::{Loader, Loaders};
use nb_value::{Argv, Text};

/// The ticket that is loaded next, with the words of its loader's program. It takes no memory, and costs for each live
/// ticket a look at each ticket and at each loader.
pub fn next_load<'a>(core: &Core, loaders: &'a Loaders) -> Option<(u64, &'a Argv)>
    ensures { FindsNext (as_loaders loaders.now) (standing core.now) (option_map (λ p. (p.0, p.1.now)) result) }
{
    if core.loadable() {
        loader_ticket(core, loaders)
    } else {
        None
    }
}

/// The least live ticket whose key has a loader, with the words of its program.
fn loader_ticket<'a>(core: &Core, loaders: &'a Loaders) -> Option<(u64, &'a Argv)>
    ensures ticket { option_map (λ p. p.0) result ≡ least_ticket (standing core.now) (keys_of (as_loaders loaders.now)) }
    ensures words { IfSome result (λ p. argv_for (as_loaders loaders.now) (standing core.now) p.0 ≡ Some p.1.now) }
{
    let entries = core.log().len();
    let mut at_least = 0;
    while at_least <= entries {
        let Some((ticket, key)) = core.live_ticket(at_least) else {
            return None;
        };
        if let Some(argv) = argv_of(loaders, key) {
            return Some((ticket, argv));
        }
        at_least = ticket + 1;
    }
    None
}

/// The words of the first loader that has the key.
fn argv_of<'a>(loaders: &'a Loaders, key: &Text) -> Option<&'a Argv>
    ensures { option_map (λ argv. argv.now) result ≡ argv_of_key (as_loaders loaders.now) key.now }
{
    for loader in loaders.as_slice() {
        if has_key(loader, key) {
            return Some(&loader.argv);
        }
    }
    None
}

fn has_key(loader: &Loader, key: &Text) -> bool
    ensures { result ≡ bytes_eq loader.now.key key.now }
{
    loader.key.as_str() == key.as_str()
}
