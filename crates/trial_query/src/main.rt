// The worked examples of the quick query, of the query of even axes and of their profile, beside the query; of the direct query; of
// the stepped surface; and of many points by one call.

#![tactic(auto)]

mod direct; // direct.rt: the examples of the direct query
mod even; // even.rt: the examples of even axes
mod lines; // lines.rt: the queries shown as lines
mod many; // many.rt: the examples of many points
mod quick; // quick.rt: the examples of the quick query
mod steps; // steps.rt: the examples of the stepped surface

fn main(rt: HostRuntime) {
    let out = rt.stdout();
    quick::print_examples(out);
    even::print_examples(out);
    direct::print_examples(out);
    steps::print_examples(out);
    many::print_examples(out);
}
