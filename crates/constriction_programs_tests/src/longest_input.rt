//! A run over the longest input that is answered.

use crate::checks::same;
use crate::runs::{LIMIT, are_lines, empty_lines, run_at_once};

#[test]
fn an_input_of_the_limit_is_answered(rt: HostRuntime) {
    let input = empty_lines(&rt, rt.alloc(), LIMIT);
    let mut written = Vec::new(rt.alloc());
    let result = run_at_once(rt.alloc(), &input, &mut written);
    same(&rt, (result, written.len()), (Ok(()), LIMIT * 9));
    are_lines(&rt, &written, b"bad line\n");
}
