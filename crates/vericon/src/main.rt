//! The program: all commands over what its process has.
#![tactic(auto)]

use std::process::ExitCode;
use vericon_edge::host_files::HostFiles;
use vericon_edge::host_sink::HostSink;
use vericon_links::tcp_listen::TcpListen;
use vericon_run::process::serve_process;

fn main(rt: HostRuntime) -> ExitCode {
    let mut files = HostFiles::new(rt);
    let mut out = HostSink::new(rt.stdout());
    let listener = TcpListen::new(rt);
    ExitCode::from(serve_process(&rt, rt.alloc(), &mut files, listener, &mut out))
}
