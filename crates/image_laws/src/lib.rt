// The laws of the layout: what the image of a job within the limits says when it is read. They stand in specs/; no code here.
#![tactic(auto)]
