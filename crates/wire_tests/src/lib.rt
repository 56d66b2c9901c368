// What the files are read as, on examples worked out by hand.
#![tactic(auto)]

#[cfg(test)]
mod tests;
