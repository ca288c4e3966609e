// What "asks nothing" and "no second answer fits" mean, for every contract of the project: specs/Determined.antt. There is no code.

#![tactic(auto)]
