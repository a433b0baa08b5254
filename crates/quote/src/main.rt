// Prices orders for links and extra fibres: one order a line on standard input, one reply a line on standard output.
#![tactic(auto)]

use quote_desk::service::serve;
use std::process::ExitCode;
use streams::ending::ended;

fn main(rt: HostRuntime) -> ExitCode {
    ended(&rt, serve(rt.alloc(), rt.stdin(), rt.stdout()))
}
