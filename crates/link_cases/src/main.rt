// Every entry of the link tables, at both edges of its row, ab initio and ex post: tools/quote_model.py writes the orders
// and works out the replies. A program of its own, since its cases are its input and its output.
#![tactic(auto)]

#[cfg(test)]
mod served;

use quote_desk::service::serve;
use std::process::ExitCode;
use streams::ending::ended;

fn main(rt: HostRuntime) -> ExitCode {
    ended(&rt, serve(rt.alloc(), rt.stdin(), rt.stdout()))
}
