// How far the blend of a cell, rounded at each operation, lies from the exact blend. No code.

#![tactic(auto)]
