//! What the clauses don't say: that with ample memory calls succeed.
use lsp_keyed::Keyed;
use lsp_rows::{RowError, Trial};

#[test]
fn oldest_of_a_key_goes_first(rt: HostRuntime) -> Result<(), RowError> {
    let mut list: Keyed<u64, u64> = Keyed::new(rt.alloc());
    let mut trial = Trial::new(rt.alloc());
    trial.same("a push", list.push(1, 7, 7, 70), Ok(()));
    trial.same("another", list.push(2, 8, 8, 80), Ok(()));
    trial.same("a third", list.push(5, 7, 7, 71), Ok(()));
    trial.same("the oldest", list.oldest(&7), Some(1));
    trial.same("taken first", list.take(&7), Some(70));
    trial.same("the oldest then", list.oldest(&7), Some(5));
    trial.same("taken next", list.take(&7), Some(71));
    trial.same("taken last", list.take(&7), None);
    trial.is_true("the other key", list.contains(&8));
    trial.same("the next number", list.next(), Some(3));
    trial.end()
}

#[test]
fn an_entry_goes_out_by_its_number(rt: HostRuntime) -> Result<(), RowError> {
    let mut list: Keyed<u64, u64> = Keyed::new(rt.alloc());
    let mut trial = Trial::new(rt.alloc());
    trial.same("a push", list.push(1, 7, 7, 70), Ok(()));
    trial.same("another of its key", list.push(2, 7, 7, 71), Ok(()));
    trial.same("a third", list.push(5, 7, 7, 72), Ok(()));
    trial.same("one in the midst", list.remove(2), Some((7, 71)));
    trial.same("the same again", list.remove(2), None);
    trial.same("another is found", list.get(5), Some(&(7, 72)));
    trial.same("the oldest goes out", list.remove(1), Some((7, 70)));
    trial.same("the oldest then", list.oldest(&7), Some(5));
    list.clear();
    trial.same("none is left", list.take(&7), None);
    trial.end()
}
