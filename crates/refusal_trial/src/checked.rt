//! A program in memory that is checked, into a sink in memory.

use crate::Said;
use std::alloc::Global;
use vericon_app::call::check_call;
use vericon_edge::fault_plan::FaultPlan;
use vericon_edge::files::Files;
use vericon_edge::mem_files::MemFiles;
use vericon_edge::mem_sink::MemSink;

/// At most one host is in `r`, until two have sent.
const ONE: &[u8] =
    b"rel r(HO); safety one: forall X:HO, Y:HO. r(X) and r(Y) -> X = Y; pktIn(s, src->dst, i) { r.insert(src); }";

/// What `check` writes in pieces of seven bytes, and its status.
pub fn said(alloc: Global) -> Option<Said> {
    let mut files = MemFiles::new(alloc, FaultPlan::none(alloc), FaultPlan::none(alloc));
    let Ok(()) = files.write_all(alloc, "p", ONE) else {
        return None;
    };
    let mut words = Vec::new(alloc);
    for text in ["check", "p"] {
        let Ok(word) = String::from_str(alloc, text) else {
            return None;
        };
        let Ok(()) = words.push(word) else {
            return None;
        };
    }
    let mut out = MemSink::new(alloc, 7, FaultPlan::none(alloc));
    let status = check_call(alloc, &words, &mut files, &mut out);
    match out.bytes().to_vec(alloc) {
        Ok(bytes) => Some((bytes, status)),
        Err(_) => None,
    }
}
