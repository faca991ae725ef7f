// The example archive, told by numbers and written forms.

#![tactic(auto)]

#[cfg(test)]
mod example;
