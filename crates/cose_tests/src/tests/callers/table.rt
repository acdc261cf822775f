//! Many messages under the same keys.

use crate::tests::callers::{CHANGED, MESSAGE};
use crate::tests::{JEFE, equal};
use cose_examples::table::count_authentic;
use cose_msg::KeyTable;

#[test]
fn counts_what_is_authentic(rt: HostRuntime) {
    let table = KeyTable::<16>::read(JEFE).expect(&rt, "a table");
    let counts = (
        count_authentic(&table, &[MESSAGE, CHANGED, MESSAGE]),
        count_authentic(&table, &[CHANGED]),
    );
    equal(&rt, counts, (2, 0));
}
