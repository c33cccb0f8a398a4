//! The cabinet: a tour of the box from end to end, layer by layer.
#![tactic(auto)]

mod book_tour;
mod series_tour;
mod statements_tour;
mod stores_tour;
mod told;

fn main(rt: HostRuntime) -> anyhow::Result<()> {
    stores_tour::run(&rt)?;
    series_tour::run(&rt)?;
    book_tour::run(&rt)?;
    statements_tour::run(&rt)
}
