// No code: that the forms in which promises are made leave one result and one content of lent memory. The forms are in specs/.
#![tactic(auto)]
