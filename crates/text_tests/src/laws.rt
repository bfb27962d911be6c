use machine_names::bounds_hold;
use script_lang::{big_script, full_names};

#[test]
fn the_laws_are_called(_rt: HostRuntime) {
    bounds_hold();
    big_script();
    full_names();
}
