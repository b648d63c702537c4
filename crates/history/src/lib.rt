// No code: specs/ holds histories, their replay, and the theorem that the replay of every sound history is faithful.

#![tactic(auto)]
