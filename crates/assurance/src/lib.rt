// No code: the user's three demands as theorems (specs/ has the statements, proofs/ the proofs).
